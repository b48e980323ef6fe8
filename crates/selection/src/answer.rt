// The chosen points of a task as a word, bit k - 1 for point k, with their number and value, and what the task costs and how long its longest
// stretch is under them.
#[derive(Clone, Copy, PartialEq, Eq, Debug)]
pub struct Selection<M> {
    pub points: u64,
    pub number: u32,
    pub value: M,
    pub cost: u32,
    pub longest: u32,
}
