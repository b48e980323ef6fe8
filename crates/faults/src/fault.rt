// What reading, costing and loading refuse, each case with the place that is told. Each is shown as its number, its place, and its
// code where it has one.
ghost use Rattle.std.specs.Prelude.{◌≡◌, Some, None};
ghost use Rattle.faults.specs.declared.fault.CostFault.TheVariants.{Read};
ghost use Rattle.faults.specs.declared.fault.LoadFault.TheVariants.{Cost, NoMemory};
ghost use Rattle.faults.specs.Faults.{read_number, read_place, cost_number, cost_place, cost_code, load_number, load_place, load_code, shown};

use std::alloc::{AllocError, AllocFailed};
use std::error::Error;
use std::fmt;

#[derive(Clone, Copy, Debug, PartialEq, Eq)]
pub enum ReadFault {
    // The listing has more than 32,768 bytes.
    TooLong,
    // A byte that is no command, or a command that is not allowed here.
    NotAllowed(usize),
    // A command without all of its operands.
    Short(usize),
    // A routine or a task that is open at the end.
    Open(usize),
    // A number outside its range.
    OutOfRange(usize),
    // A code that another routine, or another task, has.
    CodeUsed(usize),
    // One routine, task, block or level too many.
    TooMany(usize),
}

// Each fault has methods of its own: as a trait's, callers would have to bring that trait into scope.
impl ReadFault {
    // Its number in the table of refusals, which is shown; the cases are told apart by the enum.
    pub fn number(self) -> u8
        ensures { result ≡ read_number self }
    {
        match self {
            ReadFault::TooLong => 1,
            ReadFault::NotAllowed(_) => 2,
            ReadFault::Short(_) | ReadFault::Open(_) => 3,
            ReadFault::OutOfRange(_) => 4,
            ReadFault::CodeUsed(_) => 5,
            ReadFault::TooMany(_) => 6,
        }
    }

    pub fn place(self) -> usize
        ensures { result ≡ read_place self }
    {
        match self {
            ReadFault::TooLong => 0,
            ReadFault::NotAllowed(at)
            | ReadFault::Short(at)
            | ReadFault::Open(at)
            | ReadFault::OutOfRange(at)
            | ReadFault::CodeUsed(at)
            | ReadFault::TooMany(at) => at,
        }
    }
}

impl fmt::Display for ReadFault {
    ghost output = { λ e. Some (shown (read_number e) (read_place e) None) };

    fn fmt<W: fmt::Write>(&self, f: &mut fmt::Formatter<W>) -> fmt::Result {
        write!(f, "refused {} at {}", self.number(), self.place())
    }
}

impl Error for ReadFault {}

#[derive(Clone, Copy, Debug, PartialEq, Eq)]
pub enum CostFault {
    Read(ReadFault),
    // A call or a block names a code that no routine has.
    Unknown { at: usize, code: u8 },
    // A routine calls itself, at once or through others.
    Cycle { at: usize, routine: u8 },
    // A routine costs more than 1,000,000 ticks.
    TooDear { at: usize, routine: u8 },
}

// By hand, as the others below: `from_gives` tells the clauses of callers what `?` makes of it, and a derived `From` has no contract.
impl From<ReadFault> for CostFault {
    ghost from_gives = { λ e r. r ≡ Read e };

    fn from(e: ReadFault) -> CostFault {
        CostFault::Read(e)
    }
}

impl CostFault {
    // Its number in the table of refusals.
    pub fn number(self) -> u8
        ensures { result ≡ cost_number self }
    {
        match self {
            CostFault::Read(fault) => fault.number(),
            CostFault::Unknown { .. } => 7,
            CostFault::Cycle { .. } => 8,
            CostFault::TooDear { .. } => 9,
        }
    }

    pub fn place(self) -> usize
        ensures { result ≡ cost_place self }
    {
        match self {
            CostFault::Read(fault) => fault.place(),
            CostFault::Unknown { at, .. }
            | CostFault::Cycle { at, .. }
            | CostFault::TooDear { at, .. } => at,
        }
    }

    // The code that is told: the one not found, or the routine's.
    pub fn code(self) -> Option<u8>
        ensures { result ≡ cost_code self }
    {
        match self {
            CostFault::Read(_) => None,
            CostFault::Unknown { code, .. }
            | CostFault::Cycle { routine: code, .. }
            | CostFault::TooDear { routine: code, .. } => Some(code),
        }
    }
}

impl fmt::Display for CostFault {
    ghost output = { λ e. Some (shown (cost_number e) (cost_place e) (cost_code e)) };

    fn fmt<W: fmt::Write>(&self, f: &mut fmt::Formatter<W>) -> fmt::Result {
        match self {
            CostFault::Read(fault) => write!(f, "{fault}"),
            CostFault::Unknown { at, code }
            | CostFault::Cycle { at, routine: code }
            | CostFault::TooDear { at, routine: code } => {
                write!(f, "refused {} at {at} code {code}", self.number())
            }
        }
    }
}

impl Error for CostFault {}

#[derive(Clone, Copy, Debug, PartialEq, Eq)]
pub enum LoadFault {
    Cost(CostFault),
    // A block's routine costs 0.
    FreeBlock { at: usize, task: u8 },
    // No memory was to be had.
    NoMemory,
}

impl From<CostFault> for LoadFault {
    ghost from_gives = { λ e r. r ≡ Cost e };

    fn from(e: CostFault) -> LoadFault {
        LoadFault::Cost(e)
    }
}

impl From<AllocError> for LoadFault {
    ghost from_gives = { λ _ r. r ≡ NoMemory };

    fn from(_: AllocError) -> LoadFault {
        Self::NoMemory
    }
}

impl<T: Drop> From<AllocFailed<T>> for LoadFault {
    ghost from_gives = { λ _ r. r ≡ NoMemory };

    fn from(e: AllocFailed<T>) -> LoadFault {
        LoadFault::from(AllocError::from(e))
    }
}

impl LoadFault {
    // Its number in the table of refusals; 0 for want of memory, which the table does not have.
    pub fn number(self) -> u8
        ensures { result ≡ load_number self }
    {
        match self {
            LoadFault::Cost(fault) => fault.number(),
            LoadFault::FreeBlock { .. } => 10,
            LoadFault::NoMemory => 0,
        }
    }

    pub fn place(self) -> usize
        ensures { result ≡ load_place self }
    {
        match self {
            LoadFault::Cost(fault) => fault.place(),
            LoadFault::FreeBlock { at, .. } => at,
            LoadFault::NoMemory => 0,
        }
    }

    // The code that is told: the one not found, the routine's, or the task's.
    pub fn code(self) -> Option<u8>
        ensures { result ≡ load_code self }
    {
        match self {
            LoadFault::Cost(fault) => fault.code(),
            LoadFault::FreeBlock { task, .. } => Some(task),
            LoadFault::NoMemory => None,
        }
    }
}

impl fmt::Display for LoadFault {
    ghost output = { λ e. Some (shown (load_number e) (load_place e) (load_code e)) };

    fn fmt<W: fmt::Write>(&self, f: &mut fmt::Formatter<W>) -> fmt::Result {
        match self {
            LoadFault::Cost(fault) => write!(f, "{fault}"),
            LoadFault::FreeBlock { at, task } => write!(
                f,
                "refused {} at {at} code {task}",
                self.number()
            ),
            LoadFault::NoMemory => write!(f, "refused {} at {}", self.number(), self.place()),
        }
    }
}

impl Error for LoadFault {}
