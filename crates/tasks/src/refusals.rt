ghost use Rattle.std.specs.Prelude.{◌≡◌};
ghost use Rattle.tasks.specs.Refusals.{number, place};
ghost use Rattle.tasks.specs.declared.refusals.Refusal.TheVariants.{NoMemory};

use std::alloc::{AllocError, AllocFailed};

// Why a call refused. A refused call has changed nothing.
#[derive(Clone, Copy, PartialEq, Eq, Debug)]
pub enum Refusal {
    // a number outside its range
    OutOfRange,
    // no task, block or place of that number
    NoSuch,
    // a buffer or the working places are too small
    TooSmall,
    // no memory was to be had
    NoMemory,
}

// By hand: `NoMemory` holds nothing, and `from_gives` tells the clauses of callers what `?` makes of it.
impl From<AllocError> for Refusal {
    ghost from_gives = { λ _ r. r ≡ NoMemory };

    fn from(_: AllocError) -> Refusal {
        Refusal::NoMemory
    }
}

impl<T: Drop> From<AllocFailed<T>> for Refusal {
    ghost from_gives = { λ _ r. r ≡ NoMemory };

    fn from(_: AllocFailed<T>) -> Refusal {
        Refusal::NoMemory
    }
}

impl Refusal {
    // Its number in the table of refusals, which is printed with it; 0 for want of memory, which the table does not have.
    pub fn number(self) -> u8
        ensures { result ≡ number self }
    {
        match self {
            Refusal::OutOfRange => 4,
            Refusal::NoSuch => 11,
            Refusal::TooSmall => 15,
            Refusal::NoMemory => 0,
        }
    }

    // The place that is told with it: a table of its own, case by case, as that of the numbers.
    pub fn place(self) -> u32
        ensures { result ≡ place self }
    {
        match self {
            Refusal::OutOfRange => 0,
            Refusal::NoSuch => 0,
            Refusal::TooSmall => 0,
            Refusal::NoMemory => 0,
        }
    }
}
