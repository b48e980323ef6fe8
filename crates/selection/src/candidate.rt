// A start of the last stretch, and the value that the points before it have with the point in front of it. The value decides, and among
// equal values the start.
#[derive(Clone, Copy, PartialEq, Eq, PartialOrd, Ord, Default, Debug)]
pub struct Candidate<V> {
    pub value: V,
    pub start: usize,
}
