// Limits and tasks that are drawn at random.
use random::Random;
use std::alloc::Global;
use tasks::blocks::Block;
use tasks::clock::Clock;
use tasks::model::Task;
use tasks::points::Point;
use tasks::refusals::Refusal;

// A limit, or none now and then.
pub(crate) fn limit(random: &mut Random) -> Option<u32> {
    if random.below(16) == 0 {
        return None;
    }
    Some(random.below(40))
}

// A task of one to nine small blocks.
pub(crate) fn task(random: &mut Random, heap: Global) -> Result<Task, Refusal> {
    let count = 1 + random.below(9);
    let mut blocks = Vec::new(heap);
    let mut points = Vec::new(heap);
    // The blocks are counted: each is drawn when its turn comes.
    for i in 0..count {
        if i > 0 {
            let ticks = random.below(6);
            // std has no `From<u32>` for `u16`.
            let charge = random.below(8) as u16;
            points.push(Point::new(ticks, charge)?)?;
        }
        let cost = 1 + random.below(9);
        blocks.push(Block { cost })?;
    }
    let clock = Clock {
        code: 0,
        period: 1000,
        deadline: 1000,
    };
    Task::new(clock, blocks, points)
}
