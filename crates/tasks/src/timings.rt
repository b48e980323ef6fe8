ghost use Rattle.std.specs.Prelude.{◌≡◌, ◌≤◌, ◌&&◌, is_ok, IfOk, IfErr};
ghost use Rattle.tasks.specs.Ranges.{clock_fits, task_cost_fits};
ghost use Rattle.tasks.specs.declared.refusals.Refusal.TheVariants.{OutOfRange};

use crate::clock::is_clock;
use crate::refusals::Refusal;

// What a tolerance rule is told of a task: its period, its deadline and its cost under a choice, in ticks.
#[derive(Clone, Copy, PartialEq, Eq, Debug)]
pub struct Timing {
    period: u32,
    deadline: u32,
    cost: u32,
    ghost clock: { (10 ≤ period) × (period ≤ 1000000) × (1 ≤ deadline) × (deadline ≤ period) },
    ghost work: { (1 ≤ cost) × (cost ≤ 127000000) },
}

impl Timing {
    pub fn new(period: u32, deadline: u32, cost: u32) -> Result<Timing, Refusal>
        ensures test { is_ok result ≡ (clock_fits period deadline && task_cost_fits cost) }
        ensures made { IfOk result (λ t. (t.period ≡ period) × (t.deadline ≡ deadline) × (t.cost ≡ cost)) }
        ensures refused { IfErr result (λ e. e ≡ OutOfRange) }
    {
        if !is_clock(period, deadline) || !(1..=127_000_000).contains(&cost) {
            return Err(Refusal::OutOfRange);
        }
        Ok(Timing {
            period,
            deadline,
            cost,
        })
    }

    // Its numbers, as `Task` tells those of the same names: two types, and nothing more to share.
    pub fn period(&self) -> u32
        ensures { result ≡ self.now.period }
    {
        self.period
    }

    pub fn deadline(&self) -> u32
        ensures { result ≡ self.now.deadline }
    {
        self.deadline
    }

    pub fn cost(&self) -> u32
        ensures { result ≡ self.now.cost }
    {
        self.cost
    }
}
