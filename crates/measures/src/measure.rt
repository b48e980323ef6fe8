ghost use Rattle.std.specs.Prelude.{◌≡◌, ℕ, ◌+◌, ◌≤◌, false};
ghost use Rattle.tasks.specs.declared.points.Point.{Point};
ghost use Rattle.heap.specs.Orders.{before_by};
ghost use Rattle.measures.specs.Joins.{Reached};

use tasks::points::Point;

// A measure of chosen points. The implementing type is that of its values, which are ordered, and says by `none` and `join` which value a
// choice has. At most 63 points are joined, as many as a task may have, and the laws speak of values that are so reached.
pub trait Measure: Ord + Copy {
    // the value of no points
    ghost none: { Self };

    // a value with one point more
    ghost join: { Self → Point → Self };

    ghost ticks: { Self → ℕ };

    fn none() -> Self
        ensures { result ≡ none };

    fn join(self, p: Point) -> Self
        requires { Reached none join 62 self }
        ensures { result ≡ join self p };

    fn ticks(&self) -> u32
        requires { Reached none join 63 self.now }
        ensures { result ≡ ticks self.now };

    // joining the same point keeps the order: where v is not greater than w, v with p is not greater than w with p
    ghost keeps: { (v w : Self) (p : Point) → Reached none join 62 v → Reached none join 62 w → before_by Self.Ord.cmp w v ≡ false → before_by Self.Ord.cmp (join w p) (join v p) ≡ false };

    // no points have no ticks
    ghost nothing: { ticks none ≡ 0 };

    // a joining adds the point's ticks
    ghost adds: { (v : Self) (p : Point) → Reached none join 62 v → ticks (join v p) ≡ ticks v + p.ticks };

    // a value that is not greater never has more ticks
    ghost fewer: { (v w : Self) → Reached none join 63 v → Reached none join 63 w → before_by Self.Ord.cmp w v ≡ false → ticks v ≤ ticks w };
}
