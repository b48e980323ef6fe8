// Putting items into a heap and taking a least one out.
ghost use Rattle.std.specs.Prelude.{◌≡◌, ◌+◌, ◌-◌, ◌<◌, false, [], ◌∷◌, ◌++◌, drop, is_ok, if◌then◌else◌, MatchOption, nat_lt};
ghost use Rattle.std.specs.List.Sorted.{IsPermutation};
ghost use Rattle.std.specs.Option.{option_to_list};
ghost use Rattle.std.specs.List.{Contains};
ghost use Rattle.heap.specs.Heaps.{Least};
ghost use Rattle.heap.specs.Held.{size, room, held, top, rest};
ghost use Rattle.heap.specs.Orders.{before_by};

use crate::sift::{sift_down, sift_up};
use crate::{Full, Heap};

// That room, rest and name of the slots stay ties two states of a heap, so each method says it: no type does.
impl<'a, T: Ord + Copy> Heap<'a, T> {
    // Puts x among the items, or refuses where every slot is in use, and then changes nothing.
    pub fn push(&mut self, x: T) -> Result<(), Full>
        ensures test { is_ok result ≡ nat_lt (size self.old) (room self.old) }
        ensures size { size self.new ≡ (if is_ok result then size self.old + 1 else size self.old) }
        ensures room { room self.new ≡ room self.old }
        ensures held { IsPermutation (if is_ok result then x ∷ held self.old else held self.old) (held self.new) }
        ensures rest { rest self.new ≡ (if is_ok result then drop 1 (rest self.old) else rest self.old) }
        ensures same { is_ok result ≡ false → self.new ≡ self.old }
        ensures named { self.new.slots.ghost_name ≡ self.old.slots.ghost_name }
    {
        let n = self.len;
        if n == self.slots.len() {
            return Err(Full);
        }
        let slots = &mut *self.slots;
        slots[n] = x;
        sift_up(&mut slots[0..n + 1]);
        self.len = n + 1;
        Ok(())
    }

    // A least item.
    pub fn peek(&self) -> Option<T>
        ensures value { result ≡ top self.now }
        ensures cases { MatchOption result (held self.now ≡ []) (λ x. Contains (held self.now) x × Least (before_by T.cmp) x (held self.now)) }
    {
        self.slots[0..self.len].first().copied()
    }

    // Takes a least item out; the slot that it frees holds that item still.
    pub fn pop(&mut self) -> Option<T>
        ensures value { result ≡ top self.old }
        ensures cases { MatchOption result (size self.old ≡ 0) (λ _. 0 < size self.old) }
        ensures size { size self.new ≡ size self.old - 1 }
        ensures room { room self.new ≡ room self.old }
        ensures held { MatchOption result (self.new ≡ self.old) (λ x. Least (before_by T.cmp) x (held self.old) × IsPermutation (held self.old) (x ∷ held self.new)) }
        ensures rest { rest self.new ≡ option_to_list result ++ rest self.old }
        ensures named { self.new.slots.ghost_name ≡ self.old.slots.ghost_name }
    {
        if self.len == 0 {
            return None;
        }
        let n = self.len - 1;
        let least = self.slots[0];
        let slots = &mut *self.slots;
        slots.swap(0, n);
        sift_down(&mut slots[0..n]);
        self.len = n;
        Some(least)
    }

    // Puts x in the place of a least item, which it gives.
    pub fn replace_top(&mut self, x: T) -> Option<T>
        ensures value { result ≡ top self.old }
        ensures cases { MatchOption result (size self.old ≡ 0) (λ _. 0 < size self.old) }
        ensures size { size self.new ≡ size self.old }
        ensures room { room self.new ≡ room self.old }
        ensures held { MatchOption result (self.new ≡ self.old) (λ y. Least (before_by T.cmp) y (held self.old) × IsPermutation (x ∷ held self.old) (y ∷ held self.new)) }
        ensures rest { rest self.new ≡ rest self.old }
        ensures named { self.new.slots.ghost_name ≡ self.old.slots.ghost_name }
    {
        let n = self.len;
        if n == 0 {
            return None;
        }
        let replaced = self.slots[0];
        let slots = &mut *self.slots;
        slots[0] = x;
        sift_down(&mut slots[0..n]);
        Some(replaced)
    }
}
