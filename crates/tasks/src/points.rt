ghost use Rattle.std.specs.Prelude.{◌≡◌, ◌≤◌, is_ok, IfOk, IfErr};
ghost use Rattle.tasks.specs.Ranges.{point_fits};
ghost use Rattle.tasks.specs.declared.refusals.Refusal.TheVariants.{OutOfRange};

use crate::refusals::Refusal;

// A point (preemption point) between two neighbouring blocks: the ticks and the charge, in microcoulombs, that giving way there costs.
#[derive(Clone, Copy, PartialEq, Eq, Debug)]
pub struct Point {
    ticks: u32,
    charge: u16,
    ghost small: { (ticks ≤ 1000000) × (charge ≤ 65535) },
}

impl Point {
    pub fn new(ticks: u32, charge: u16) -> Result<Point, Refusal>
        ensures test { is_ok result ≡ point_fits ticks }
        ensures made { IfOk result (λ p. (p.ticks ≡ ticks) × (p.charge ≡ charge)) }
        ensures refused { IfErr result (λ e. e ≡ OutOfRange) }
    {
        if ticks <= 1_000_000 {
            Ok(Point { ticks, charge })
        } else {
            Err(Refusal::OutOfRange)
        }
    }

    pub fn ticks(&self) -> u32
        ensures { result ≡ self.now.ticks }
    {
        self.ticks
    }

    pub fn charge(&self) -> u16
        ensures { result ≡ self.now.charge }
    {
        self.charge
    }
}
