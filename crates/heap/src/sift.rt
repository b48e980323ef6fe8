// The two moves that put one item of a slice into its place, so that no item comes before its parent.
ghost use Rattle.std.specs.Prelude.{◌≡◌, ◌+◌, ◌-◌, ◌*◌, ◌/◌, ◌<◌, ◌≤◌, length, slice_index_or};
ghost use Rattle.std.specs.List.Sorted.{IsPermutation};
ghost use Rattle.heap.specs.Heaps.{HeapedWithin, Heaped, NoChildBefore};
ghost use Rattle.heap.specs.Orders.{before_by};

// Whether the item at i comes before the item at j.
fn precedes<T: Ord + Copy>(s: &[T], i: usize, j: usize) -> bool
    requires { (i < length s.now) × (j < length s.now) }
    ensures { (d : T) → result ≡ before_by T.cmp (slice_index_or s.now i d) (slice_index_or s.now j d) }
{
    s[i].cmp(&s[j]).is_lt()
}

// Moves the last item up, past each parent that it comes before.
pub fn sift_up<T: Ord + Copy>(s: &mut [T])
    requires some { 0 < length s.old }
    requires heaped { HeapedWithin (before_by T.cmp) s.old 0 (length s.old - 1) }
    ensures shuffled { IsPermutation s.old s.new }
    ensures heaped { Heaped (before_by T.cmp) s.new }
{
    let mut j = s.len() - 1;
    // From an item to its parent, and not from one item to the next: no iterator goes this way.
    while j > 0 {
        let parent = (j - 1) / 2;
        if !precedes(s, j, parent) {
            return;
        }
        s.swap(parent, j);
        j = parent;
    }
}

// The place of the child of the item at j that comes first; there is at least one child.
fn first_child<T: Ord + Copy>(s: &[T], j: usize) -> usize
    requires { j < length s.now / 2 }
    ensures child { (j * 2 + 1 ≤ result) × (result ≤ j * 2 + 2) × (result < length s.now) }
    ensures first { NoChildBefore (before_by T.cmp) s.now j result }
{
    let left = j * 2 + 1;
    let right = left + 1;
    if right < s.len() && precedes(s, right, left) {
        right
    } else {
        left
    }
}

// Moves the first item down, past each child that comes before it.
pub fn sift_down<T: Ord + Copy>(s: &mut [T])
    requires { HeapedWithin (before_by T.cmp) s.old 1 (length s.old) }
    ensures shuffled { IsPermutation s.old s.new }
    ensures heaped { Heaped (before_by T.cmp) s.new }
{
    let mut j = 0;
    // From an item to one of its children: no iterator goes this way.
    while j < s.len() / 2 {
        let child = first_child(s, j);
        if !precedes(s, child, j) {
            return;
        }
        s.swap(j, child);
        j = child;
    }
}
