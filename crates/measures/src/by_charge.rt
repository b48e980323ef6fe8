// The measure that counts ticks, then charge.
ghost use Rattle.measures.specs.Weights.{no_ticks_charge, join_ticks_charge};
ghost use Rattle.std.proofs.Common.{rules};

use crate::measure::Measure;
use crate::values::TicksCharge;
use tasks::points::Point;

impl Measure for TicksCharge {
    ghost none = { no_ticks_charge };

    ghost join = { join_ticks_charge };

    ghost ticks = { λ v. v.ticks };

    ghost keeps = { Prim.search rules };

    ghost nothing = { Prim.search rules };

    ghost adds = { Prim.search rules };

    ghost fewer = { Prim.search rules };

    fn none() -> TicksCharge {
        TicksCharge {
            ticks: 0,
            charge: 0,
        }
    }

    fn join(self, p: Point) -> TicksCharge {
        TicksCharge {
            ticks: self.ticks + p.ticks(),
            charge: self.charge + u32::from(p.charge()),
        }
    }

    fn ticks(&self) -> u32 {
        self.ticks
    }
}
