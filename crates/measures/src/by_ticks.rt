// The measure that counts ticks alone.
ghost use Rattle.measures.specs.Weights.{no_ticks, join_ticks};
ghost use Rattle.std.proofs.Common.{rules};

use crate::measure::Measure;
use crate::values::Ticks;
use tasks::points::Point;

impl Measure for Ticks {
    ghost none = { no_ticks };

    ghost join = { join_ticks };

    ghost ticks = { λ v. v.ticks };

    ghost keeps = { Prim.search rules };

    ghost nothing = { Prim.search rules };

    ghost adds = { Prim.search rules };

    ghost fewer = { Prim.search rules };

    fn none() -> Ticks {
        Ticks { ticks: 0 }
    }

    fn join(self, p: Point) -> Ticks {
        Ticks {
            ticks: self.ticks + p.ticks(),
        }
    }

    fn ticks(&self) -> u32 {
        self.ticks
    }
}
