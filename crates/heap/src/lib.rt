// A binary min-heap over a lent slice, for every item that has a total order.
#![tactic(auto)]

ghost use Rattle.std.specs.Prelude.{◌≤◌, length, take};
ghost use Rattle.heap.specs.Heaps.{Heaped, HeapedWithin-prop};
ghost use Rattle.heap.specs.Orders.{before_by};

mod queue;
mod sift;

// Every slot of the heap is in use.
#[derive(Clone, Copy, PartialEq, Eq, Debug)]
pub struct Full;

// A priority queue over lent slots that gives a least item first. The items stand in the first `len` slots.
#[derive(Drop)]
pub struct Heap<'a, T: Ord + Copy> {
    slots: &'a mut [T],
    // a count beside lent slots: the memory is fixed
    len: usize,
    ghost within: { len ≤ length slots.now },
    ghost heaped: { Heaped (before_by T.cmp) (take len slots.now) } by { HeapedWithin-prop (before_by T.cmp) (take len slots.now) 0 (length (take len slots.now)) },
}

impl<'a, T: Ord + Copy> Heap<'a, T> {
    ghost use Rattle.std.specs.Prelude.{◌≡◌, [], length};
    ghost use Rattle.heap.specs.Held.{size, room, held, rest};

    // An empty heap that may hold as many items as there are slots.
    pub fn new(slots: &'a mut [T]) -> Heap<'a, T>
        ensures size { size result ≡ 0 }
        ensures room { room result ≡ length slots.old }
        ensures held { held result ≡ [] }
        ensures rest { rest result ≡ slots.old }
        ensures named { result.slots.ghost_name ≡ slots.entry.ghost_name }
    {
        Heap { slots, len: 0 }
    }

    // The number of items.
    pub fn len(&self) -> usize
        ensures size { result ≡ size self.now }
        ensures held { result ≡ length (held self.now) }
    {
        self.len
    }

    // The number of slots.
    pub fn capacity(&self) -> usize
        ensures { result ≡ room self.now }
    {
        self.slots.len()
    }
}

#[cfg(test)]
mod tests {
    use super::*;
    use std::test::Fail;

    #[test]
    fn gives_least_first(rt: HostRuntime) -> Result<(), Fail> {
        let mut slots = [(0u64, 0usize); 3];
        let mut heap = Heap::new(&mut slots);
        heap.push((7, 1))?;
        heap.push((3, 2))?;
        heap.push((3, 0))?;
        assert_eq!(rt; heap.push((1, 1)), Err(Full));
        assert_eq!(rt; heap.pop(), Some((3, 0)));
        assert_eq!(rt; heap.pop(), Some((3, 2)));
        assert_eq!(rt; heap.pop(), Some((7, 1)));
        assert_eq!(rt; heap.pop(), None);
        Ok(())
    }

    #[test]
    fn replaces_least(rt: HostRuntime) -> Result<(), Fail> {
        let mut slots = [0u32; 2];
        let mut heap = Heap::new(&mut slots);
        assert_eq!(rt; heap.replace_top(9), None);
        heap.push(4)?;
        heap.push(6)?;
        assert_eq!(rt; heap.replace_top(9), Some(4));
        assert_eq!(rt; heap.peek(), Some(6));
        Ok(())
    }
}
