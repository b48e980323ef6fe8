use std::alloc::AllocError;
use thiserror::Error;

// What is wrong with a line, or with the input as a whole.
#[derive(Clone, Copy, PartialEq, Eq, Debug, Error)]
pub enum Problem {
    #[error("expected 'task', 'block', 'point' or 'limit'")]
    UnknownWord,
    #[error("a number is missing")]
    MissingNumber,
    #[error("this is not a whole number from 0 to 4294967295")]
    NotANumber,
    #[error("there are more words than expected")]
    TooManyWords,
    #[error("the first line is 'task CODE PERIOD DEADLINE'")]
    TaskFirst,
    #[error("there is one task only")]
    TaskTwice,
    #[error("a block stands first, and one behind each point")]
    BlockHere,
    #[error("a point stands between two blocks")]
    PointHere,
    #[error("limits stand behind the last block")]
    LimitHere,
    #[error("a code is 0 to 255")]
    Code,
    #[error("a period is 10 to 1000000 ticks, and a deadline 1 to the period")]
    Clock,
    #[error("a block costs 1 to 1000000 ticks")]
    Cost,
    #[error("a point has 0 to 1000000 ticks")]
    Ticks,
    #[error("a point has a charge of 0 to 65535 microcoulombs")]
    Charge,
    #[error("a task has 64 blocks at most")]
    Blocks,
    #[error("the input has no task with a block")]
    NoTask,
    #[error("the input has no limit")]
    NoLimit,
    #[error("no memory is left")]
    NoMemory(#[from(alloc)] AllocError),
}
