// What a rule answers of a place: how long it can be kept waiting, below zero where it is overloaded, and a moment that has that slack.
#[derive(Clone, Copy, PartialEq, Eq, Debug)]
pub struct Answer {
    pub tolerance: i64,
    pub moment: u32,
}
