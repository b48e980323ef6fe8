// Codes and offsets of routines, or of tasks.
use std::marker::Model;

#[derive(Clone, Copy, Debug, PartialEq, Eq)]
pub struct Head {
    pub code: u8,
    pub at: usize,
}

// At most 32 of them, in the listing's order. They lie in an array, since reading takes no memory and cannot run out of it.
#[derive(Clone, Copy, Debug, PartialEq, Eq)]
pub struct Heads {
    heads: [Head; 32],
    count: usize,
}

impl Model for Heads {
    ghost use Rattle.std.specs.Prelude.{List, ◌≡◌, ◌≤◌, ◌-◌, ◌++◌, length, take, drop, replicate};
    ghost use Rattle.std.proofs.Common.{sym, ap, ◌∙◌, arith, take-append-drop, length-take-le};
    ghost use Rattle.reading.specs.declared.heads.Head.{Head};

    ghost Value = { List Head };

    ghost use Rattle.reading.specs.Heads.{head};

    ghost view = { λ h. take h.count h.heads };

    // The places behind them are empty.
    ghost invariant = { λ h. (length h.heads ≡ 32) × (h.count ≤ 32) × (drop h.count h.heads ≡ replicate (32 - h.count) (head 0 0)) };

    ghost inverse = { λ hs. record { heads = hs ++ replicate (32 - length hs) (head 0 0); count = length hs } };

    ghost inverse_ok = { λ h p i. record {
      heads = (ap (λ n. take h.count h.heads ++ replicate (32 - n) (head 0 0)) (length-take-le h.count h.heads (omega (arith, p.0, p.1))) ∙ ap (λ xs. take h.count h.heads ++ xs) (sym p.2) ∙ take-append-drop h.count h.heads) i;
      count = length-take-le h.count h.heads (omega (arith, p.0, p.1)) i;
    } };
}

pub mod methods;
