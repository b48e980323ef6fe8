ghost use Rattle.std.specs.Prelude.{◌≡◌, ◌+◌, ◌-◌, ◌<◌, ◌&&◌, is_ok, IfOk, IfErr, vec_len};
ghost use Rattle.tasks.specs.Making.{Recosted};
ghost use Rattle.tasks.specs.Ranges.{clock_fits, body_fits, cost_fits, costs_fit};
ghost use Rattle.tasks.specs.Tasks.{point_count};
ghost use Rattle.tasks.specs.declared.refusals.Refusal.TheVariants.{OutOfRange, NoSuch};

use crate::blocks::Block;
use crate::clock::{Clock, is_clock};
use crate::model::Task;
use crate::points::Point;
use crate::refusals::Refusal;

// A block costs 1 to 1,000,000 ticks.
fn is_cost(cost: u32) -> bool
    ensures { result ≡ cost_fits cost }
{
    (1..=1_000_000).contains(&cost)
}

fn all_costs_fit(blocks: &[Block]) -> bool
    ensures { result ≡ costs_fit blocks.now }
{
    blocks.iter().all(|block| is_cost(block.cost))
}

impl Task {
    // A task of plain numbers, or a refusal where one of them is outside its range.
    pub fn new(clock: Clock, blocks: Vec<Block>, points: Vec<Point>) -> Result<Task, Refusal>
        ensures test { is_ok result ≡ (clock_fits clock.period clock.deadline && body_fits blocks.items (vec_len blocks) (vec_len points)) }
        ensures made { IfOk result (λ t. (t.code ≡ clock.code) × (t.period ≡ clock.period) × (t.deadline ≡ clock.deadline) × (t.blocks ≡ blocks) × (t.points ≡ points)) }
        ensures refused { IfErr result (λ e. e ≡ OutOfRange) }
    {
        let Clock {
            code,
            period,
            deadline,
        } = clock;
        if !is_clock(period, deadline) {
            return Err(Refusal::OutOfRange);
        }
        let count = blocks.len();
        if !(1..=64).contains(&count) || points.len() != count - 1 {
            return Err(Refusal::OutOfRange);
        }
        if !all_costs_fit(&blocks) {
            return Err(Refusal::OutOfRange);
        }
        Ok(Task {
            code,
            period,
            deadline,
            blocks,
            points,
        })
    }

    pub fn code(&self) -> u8
        ensures { result ≡ self.now.code }
    {
        self.code
    }

    pub fn period(&self) -> u32
        ensures { result ≡ self.now.period }
    {
        self.period
    }

    pub fn deadline(&self) -> u32
        ensures { result ≡ self.now.deadline }
    {
        self.deadline
    }

    // Its blocks in their order.
    pub fn blocks(&self) -> &[Block]
        ensures { result.now ≡ self.now.blocks.items }
    {
        self.blocks.as_slice()
    }

    // Its points in their order: the one at index i lies between the blocks at i and i + 1.
    pub fn points(&self) -> &[Point]
        ensures { result.now ≡ self.now.points.items }
    {
        self.points.as_slice()
    }

    // How many blocks it has: one more than points.
    pub fn block_count(&self) -> usize
        ensures { result ≡ point_count self.now + 1 }
    {
        self.blocks.len()
    }
}

impl Task {
    // A new cost for one block, by its number from 1: that block changes, and every other holds what it held.
    pub fn recost(&mut self, block: usize, cost: u32) -> Result<(), Refusal>
        ensures { Recosted self.old block cost result self.new }
    {
        if !is_cost(cost) {
            return Err(Refusal::OutOfRange);
        }
        if !(1..=self.block_count()).contains(&block) {
            return Err(Refusal::NoSuch);
        }
        self.blocks[block - 1].cost = cost;
        Ok(())
    }
}
