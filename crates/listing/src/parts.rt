// What a task is made of.
use tasks::blocks::Block;
pub use tasks::clock::Clock;
use tasks::points::Point;

// Its blocks and points.
#[derive(Debug, PartialEq, Eq, Drop)]
pub struct Parts {
    pub blocks: Vec<Block>,
    pub points: Vec<Point>,
}
