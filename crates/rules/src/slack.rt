// The arithmetic that both rules share. A demand is at most 32 x 127,000,000 x 100,000 = 406,400,000,000,000.
ghost use Rattle.std.specs.Prelude.{◌≡◌, ◌≤◌, length, pos, ◌-ℤ◌};
ghost use Rattle.rules.specs.Slacks.{load, demand};

use tasks::timings::Timing;

// What a task asks for up to a moment: at most 127,000,000 x 100,000.
#[tactic(auto, unfolding(crate::specs::Slacks::load))]
pub(crate) fn load_of(task: &Timing, by: u32) -> u64
    requires { by ≤ 1000000 }
    ensures { result ≡ load by task.now }
{
    let period = u64::from(task.period());
    let releases = (u64::from(by) + period - 1) / period;
    u64::from(task.cost()) * releases
}

// What some tasks together ask for up to a moment.
pub(crate) fn demand_of(tasks: &[Timing], by: u32) -> u64
    requires few { length tasks.now ≤ 32 }
    requires by { by ≤ 1000000 }
    ensures sum { result ≡ demand tasks.now by }
    ensures small { result ≤ 406400000000000 }
{
    tasks.iter().map(|task| load_of(task, by)).sum()
}

// What is left at a moment once the demand is met.
pub(crate) fn left(moment: u32, demand: u64) -> i64
    requires { demand ≤ 406400000000000 }
    ensures { result ≡ pos moment -ℤ pos demand }
{
    // std has no `From<u64>` for `i64`; what is required keeps the demand below 2^63.
    i64::from(moment) - demand as i64
}
