// The choice of a start for each block, by a heap of candidates.
ghost use Rattle.std.specs.Prelude.{◌≡◌, ◌+◌, ◌<◌, ◌≤◌, length};
ghost use Rattle.std.specs.List.{Contains};
ghost use Rattle.heap.specs.Held.{size, room, held};
ghost use Rattle.heap.specs.Orders.{before_by};
ghost use Rattle.tasks.specs.Tasks.{point_count};
ghost use Rattle.measures.specs.Joins.{Reached};
ghost use Rattle.selection.specs.declared.candidate.Candidate.{Candidate as CandidateOf};
ghost use Rattle.selection.specs.Linked.{value_of, with_point, selected, Holds, Picked, Linked, Cleared};

use crate::candidate::Candidate;
use crate::limited::Limited;
use heap::Heap;
use measures::measure::Measure;

// The chosen start of the last stretch for each end, and the value of the selection for all blocks.
#[derive(Clone, Copy)]
pub(crate) struct Links<M> {
    // an array, since choosing takes no memory
    pub(crate) starts: [usize; 64],
    pub(crate) value: Option<M>,
}

impl Limited<'_> {
    // The candidate of a start, which has the point in front of it joined to the value of the blocks before.
    fn candidate<M: Measure>(&self, start: usize, value: M) -> Candidate<M>
        requires start { start ≤ point_count self.now.task.now }
        requires reached { Reached M.Measure.none M.Measure.join 62 value }
        ensures start { result.start ≡ start }
        ensures value { result.value ≡ with_point M.Measure.join self.now.task.now start value }
    {
        if start == 0 {
            return Candidate { value, start };
        }
        Candidate {
            value: value.join(self.task.points()[start - 1]),
            start,
        }
    }

    // Takes candidates that are out of reach off the top, and gives the first one within reach. A candidate out of reach stays so, since its
    // stretch only grows; one below it may be within reach all the same, since point ticks vary.
    fn in_reach<M: Measure>(
        &self,
        heap: &mut Heap<'_, Candidate<M>>,
        end: usize,
    ) -> Option<Candidate<M>>
        requires starts { (x : CandidateOf M) → Contains (held heap.old) x → x.start ≤ end }
        requires end { end ≤ point_count self.now.task.now }
        ensures cleared { Cleared (before_by M.cmp) self.now.task.now self.now.limit end (held heap.old) (held heap.new) result }
        ensures room { room heap.new ≡ room heap.old }
        ensures size { size heap.new ≤ size heap.old }
    {
        while let Some(top) = heap.peek() {
            if self.reaches(top.start, end) {
                return Some(top);
            }
            let _ = heap.pop();
        }
        None
    }

    // One block more: puts the candidate that starts there among the others, where the blocks before have a selection, and picks the first
    // one within reach.
    fn advance<M: Measure>(
        &self,
        heap: &mut Heap<'_, Candidate<M>>,
        value: Option<M>,
        end: usize,
    ) -> Option<Candidate<M>>
        requires space { size heap.old < room heap.old }
        requires holds { Holds (before_by M.cmp) M.Measure.none M.Measure.join self.now.task.now self.now.limit end end (held heap.old) }
        requires value { value ≡ value_of (selected (before_by M.cmp) M.Measure.none M.Measure.join self.now.task.now self.now.limit end) }
        requires end { end ≤ point_count self.now.task.now }
        ensures room { room heap.new ≡ room heap.old }
        ensures size { size heap.new ≤ size heap.old + 1 }
        ensures holds { Holds (before_by M.cmp) M.Measure.none M.Measure.join self.now.task.now self.now.limit (end + 1) (end + 1) (held heap.new) }
        ensures picked { Picked (before_by M.cmp) M.Measure.none M.Measure.join self.now.task.now self.now.limit end result }
    {
        if let Some(v) = value {
            let _ = heap.push(self.candidate(end, v));
        }
        self.in_reach(heap, end)
    }

    // Goes through the blocks in their order, with at most one push and one pop for each start.
    pub(crate) fn link<M: Measure>(&self, places: &mut [Candidate<M>]) -> Links<M>
        requires { 65 ≤ length places.old }
        ensures linked { Linked (before_by M.cmp) M.Measure.none M.Measure.join self.now.task.now self.now.limit (point_count self.now.task.now + 1) result.starts }
        ensures value { result.value ≡ value_of (selected (before_by M.cmp) M.Measure.none M.Measure.join self.now.task.now self.now.limit (point_count self.now.task.now + 1)) }
    {
        let mut heap = Heap::new(places);
        let mut starts = [0usize; 64];
        let mut value = Some(M::none());
        // Each end is a number that is asked about, and not only the place of an item.
        for end in 0..self.task.block_count() {
            let picked = self.advance(&mut heap, value, end);
            starts[end] = picked.map_or(0, |candidate| candidate.start);
            value = picked.map(|candidate| candidate.value);
        }
        Links { starts, value }
    }
}
