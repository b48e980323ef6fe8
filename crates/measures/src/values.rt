ghost use Rattle.std.specs.Prelude.{◌≡◌};
ghost use Rattle.heap.specs.Orders.{before_by};
ghost use Rattle.measures.specs.Weights.{fewer_ticks, fewer_ticks_charge};

// The ticks of the chosen points.
#[derive(Clone, Copy, PartialEq, Eq, PartialOrd, Ord, Default, Debug)]
pub struct Ticks {
    pub ticks: u32,
}

// The ticks of the chosen points, and their charge in microcoulombs, which decides among equal ticks.
#[derive(Clone, Copy, PartialEq, Eq, PartialOrd, Ord, Default, Debug)]
pub struct TicksCharge {
    pub ticks: u32,
    pub charge: u32,
}

// The values are ordered by ticks, and those of the second measure by their charge among equal ticks. The orders are told value by value, and
// as functions.
pub fn orders_stand()
    ensures ticks { (v w : Ticks) → before_by ⟦<Ticks as Ord>⟧.cmp v w ≡ fewer_ticks v w }
    ensures charge { (v w : TicksCharge) → before_by ⟦<TicksCharge as Ord>⟧.cmp v w ≡ fewer_ticks_charge v w }
    ensures ticks_order { before_by ⟦<Ticks as Ord>⟧.cmp ≡ fewer_ticks }
    ensures charge_order { before_by ⟦<TicksCharge as Ord>⟧.cmp ≡ fewer_ticks_charge }
{}
