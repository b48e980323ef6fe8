// One block: code that runs without giving way, and what it costs at worst, in ticks.
#[derive(Clone, Copy, PartialEq, Eq, Debug)]
pub struct Block {
    pub cost: u32,
}
