ghost use Rattle.std.specs.Prelude.{◌≡◌, ◌+◌, ◌≤◌, length};
ghost use Rattle.tasks.specs.Choices.{told};
ghost use Rattle.tasks.specs.Tasks.{point_count, cost_of_block, cost_of, longest_of, points_of};
ghost use Rattle.tasks.specs.Under.{under, ListedUnder, StretchesUnder};

use crate::model::Task;
use crate::refusals::Refusal;
use std::alloc::Global;

// Whether a word chooses the point at an index.
pub fn is_chosen(word: u64, index: usize) -> bool
    ensures { result ≡ told word index }
{
    index < 64 && (word >> index) % 2 == 1
}

// A word chooses points of a task by bit k - 1 for point k. One with a bit past the last point is refused.
impl Task {
    fn admit(&self, word: u64) -> Result<(), Refusal>
        ensures { result ≡ under self.now word tt }
    {
        if word >> self.points.len() == 0 {
            Ok(())
        } else {
            Err(Refusal::OutOfRange)
        }
    }

    fn cost_at(&self, index: usize) -> u32
        requires { index ≤ point_count self.now }
        ensures value { result ≡ cost_of_block self.now index }
        ensures bound { result ≤ 1000000 }
    {
        self.blocks[index].cost
    }

    // What the task costs under a word: its blocks, and the ticks of the chosen points.
    pub fn cost(&self, word: u64) -> Result<u32, Refusal>
        ensures { result ≡ under self.now word (cost_of self.now (told word)) }
    {
        self.admit(word)?;
        let mut sum = self.cost_at(0);
        for (i, point) in self.points.iter().enumerate() {
            sum += self.cost_at(i + 1);
            if is_chosen(word, i) {
                sum += point.ticks();
            }
        }
        Ok(sum)
    }

    // The length of the longest stretch under a word.
    pub fn longest(&self, word: u64) -> Result<u32, Refusal>
        ensures { result ≡ under self.now word (longest_of self.now (told word)) }
    {
        self.admit(word)?;
        let mut longest: u32 = 0;
        let mut length = self.cost_at(0);
        for (i, point) in self.points.iter().enumerate() {
            if is_chosen(word, i) {
                longest = longest.max(length);
                length = point.ticks();
            }
            length += self.cost_at(i + 1);
        }
        Ok(longest.max(length))
    }

    // How many points a word chooses.
    pub fn number(&self, word: u64) -> Result<u32, Refusal>
        ensures { result ≡ under self.now word (length (points_of self.now (told word))) }
    {
        self.admit(word)?;
        Ok(word.count_ones())
    }

    // The numbers of the points that a word chooses, rising.
    pub fn chosen(&self, heap: Global, word: u64) -> Result<Vec<u32>, Refusal>
        ensures { ListedUnder self.now word result }
    {
        self.admit(word)?;
        let mut list = Vec::new(heap);
        let mut rest = word;
        // One step for each chosen point: no item to go over, only from one set bit to the next.
        while rest != 0 {
            let index = rest.trailing_zeros();
            list.push(index + 1)?;
            rest -= 1 << index;
        }
        Ok(list)
    }
}

// A task has 63 points at most, so their counts and indices fit a `u32`; std has no `From` between it and `usize`, and `as` is proved to keep them.

// A stretch (non-preemptive region) of a task: the numbers of its first and last blocks, from 1, and its length in ticks.
#[derive(Clone, Copy, PartialEq, Eq, Debug)]
pub struct Stretch {
    pub first: u32,
    pub last: u32,
    pub length: u32,
}

impl Task {
    // The stretches under a word, in their order.
    pub fn stretches(&self, heap: Global, word: u64) -> Result<Vec<Stretch>, Refusal>
        ensures { StretchesUnder self.now word result }
    {
        self.admit(word)?;
        let mut list = Vec::new(heap);
        let mut first = 1;
        let mut length = self.cost_at(0);
        for (i, point) in self.points.iter().enumerate() {
            if is_chosen(word, i) {
                let last = i as u32 + 1;
                list.push(Stretch {
                    first,
                    last,
                    length,
                })?;
                first = last + 1;
                length = point.ticks();
            }
            length += self.cost_at(i + 1);
        }
        let last = self.block_count() as u32;
        list.push(Stretch {
            first,
            last,
            length,
        })?;
        Ok(list)
    }
}
