ghost use Rattle.std.specs.Prelude.{◌≡◌};
ghost use Rattle.tasks.specs.Ranges.{clock_fits};

// A task's code, and its period and deadline in ticks, as they are told. It keeps no range: the task that is made of it does.
#[derive(Clone, Copy, PartialEq, Eq, Debug)]
pub struct Clock {
    pub code: u8,
    pub period: u32,
    pub deadline: u32,
}

// A period of 10 to 1,000,000 ticks, and a deadline from 1 to the period. Two plain numbers, since a timing has no code.
pub(crate) fn is_clock(period: u32, deadline: u32) -> bool
    ensures { result ≡ clock_fits period deadline }
{
    (10..=1_000_000).contains(&period) && (1..=period).contains(&deadline)
}
