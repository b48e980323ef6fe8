// Sets of codes.
ghost use Rattle.std.specs.Prelude.{◌≡◌, ℕ, ◌<◌, false, true, ◌&&◌, ◌||◌, length, slice_index_or, slice_set, replicate};
ghost use Rattle.listing.specs.Cycles.{RowSays};

use std::array;
use std::marker::Model;

// Each of the 256 codes is marked or not. The marks lie in an array, since costing takes no memory.
#[derive(Clone, Copy, Debug, PartialEq, Eq)]
pub struct Codes {
    marks: [bool; 256],
}

impl Model for Codes {
    ghost use Rattle.std.specs.Prelude.{◌≡◌, Bool, List, length};

    ghost Value = { List Bool };

    ghost view = { λ s. s.marks };

    ghost invariant = { λ s. length s.marks ≡ 256 };

    ghost inverse = { λ marks. record { marks = marks } };
}

impl Codes {
    // No code.
    pub fn none() -> Codes
        ensures { result ≡ replicate 256 false }
    {
        Codes {
            marks: [false; 256],
        }
    }

    // Those that pass a test.
    pub(crate) fn those<F: Fn(u8) -> bool>(test: F) -> Codes
        requires { F.IsAlwaysCallable test }
        ensures wide { length result ≡ 256 }
        ensures says { (c : ℕ) → c < 256 → F.post test c (slice_index_or result c false) }
    {
        Codes {
            // A place of the array is below 256; std has no `From<usize>` for `u8`.
            marks: array::from_fn(|code| test(code as u8)),
        }
    }

    pub fn has(&self, code: u8) -> bool
        ensures { result ≡ slice_index_or self.now code false }
    {
        self.marks[usize::from(code)]
    }

    pub fn insert(&mut self, code: u8)
        ensures { self.new ≡ slice_set self.old code true }
    {
        self.marks[usize::from(code)] = true;
    }

    // These, and the others where a code is among these.
    pub(crate) fn through(&self, code: u8, others: &Codes) -> Codes
        ensures { RowSays result (λ c. slice_index_or self.now c false || (slice_index_or self.now code false && slice_index_or others.now c false)) }
    {
        // Few routines call a given code, so the rows of the others are not gone through.
        if self.marks[usize::from(code)] {
            Codes::those(|c| self.has(c) || others.has(c))
        } else {
            *self
        }
    }
}
