ghost use Rattle.std.specs.Prelude.{◌≡◌, ◌+◌, ◌≤◌, true, vec_len};
ghost use Rattle.tasks.specs.Ranges.{costs_fit};

use crate::blocks::Block;
use crate::points::Point;

// A task: released once in each period, to be done by its deadline, with 1 to 64 blocks and a point between each two neighbours.
#[derive(Drop)]
pub struct Task {
    pub(crate) code: u8,
    pub(crate) period: u32,
    pub(crate) deadline: u32,
    pub(crate) blocks: Vec<Block>,
    pub(crate) points: Vec<Point>,
    ghost clock: { (10 ≤ period) × (period ≤ 1000000) × (1 ≤ deadline) × (deadline ≤ period) },
    ghost count: { (1 ≤ vec_len blocks) × (vec_len blocks ≤ 64) × (vec_len points + 1 ≡ vec_len blocks) },
    ghost costs: { costs_fit blocks.items ≡ true },
}
