// The commands, from one table of bytes, operand widths and ranges.
ghost use Rattle.std.specs.Prelude.{◌≡◌, ◌+◌, ◌*◌, ◌^◌, ◌<◌, ◌≤◌, length};
ghost use Rattle.commands.specs.Commands.{rows, row_of, row_in, allows, low, top, top_second, command_of, holds, within, width_of, numbers_of, Narrow};

// What a command does, as the table has it: no operands yet, which `Command` has. `Sheet` stands for the commands of sheets, which no
// listing has.
#[derive(Clone, Copy, Debug, PartialEq, Eq)]
pub enum Kind {
    Routine,
    Work,
    Call,
    Either,
    Or,
    EndEither,
    Repeat,
    EndRepeat,
    EndRoutine,
    Task,
    Block,
    Point,
    EndTask,
    Sheet,
}

// An operand's width in bytes and its range. A command with fewer than three has some of width 0.
#[derive(Clone, Copy, Debug, PartialEq, Eq)]
pub struct Operand {
    pub width: usize,
    pub low: u32,
    pub top: u32,
}

// A command's byte and its operands. A third operand is at most the second. Three fields, and no array: each operand goes to a field of its
// own in the command.
#[derive(Clone, Copy, Debug, PartialEq, Eq)]
pub struct Row {
    pub byte: u8,
    pub kind: Kind,
    pub first: Operand,
    pub second: Operand,
    pub third: Operand,
}

const NONE: Operand = Operand {
    width: 0,
    low: 0,
    top: 0,
};

const CODE: Operand = Operand {
    width: 1,
    low: 0,
    top: 255,
};

const TICKS: Operand = Operand {
    width: 4,
    low: 0,
    top: 1_000_000,
};

const TURNS: Operand = Operand {
    width: 2,
    low: 0,
    top: 1000,
};

const PERIOD: Operand = Operand {
    width: 4,
    low: 10,
    top: 1_000_000,
};

const DEADLINE: Operand = Operand {
    width: 4,
    low: 1,
    top: 1_000_000,
};

const WORD: Operand = Operand {
    width: 2,
    low: 0,
    top: 65_535,
};

const LONG: Operand = Operand {
    width: 4,
    low: 0,
    top: 4_294_967_295,
};

// A row with no operands: what a row of the table does not say, it takes from here.
const PLAIN: Row = Row {
    byte: 0,
    kind: Kind::Sheet,
    first: NONE,
    second: NONE,
    third: NONE,
};

pub const ROWS: [Row; 17] = [
    Row {
        byte: 0x20,
        kind: Kind::Routine,
        first: CODE,
        ..PLAIN
    },
    Row {
        byte: 0x21,
        kind: Kind::Work,
        first: TICKS,
        ..PLAIN
    },
    Row {
        byte: 0x22,
        kind: Kind::Call,
        first: CODE,
        ..PLAIN
    },
    Row {
        byte: 0x23,
        kind: Kind::Either,
        ..PLAIN
    },
    Row {
        byte: 0x24,
        kind: Kind::Or,
        ..PLAIN
    },
    Row {
        byte: 0x25,
        kind: Kind::EndEither,
        ..PLAIN
    },
    Row {
        byte: 0x26,
        kind: Kind::Repeat,
        first: TURNS,
        ..PLAIN
    },
    Row {
        byte: 0x27,
        kind: Kind::EndRepeat,
        ..PLAIN
    },
    Row {
        byte: 0x28,
        kind: Kind::EndRoutine,
        ..PLAIN
    },
    Row {
        byte: 0x30,
        kind: Kind::Task,
        first: CODE,
        second: PERIOD,
        third: DEADLINE,
    },
    Row {
        byte: 0x31,
        kind: Kind::Block,
        first: CODE,
        ..PLAIN
    },
    Row {
        byte: 0x32,
        kind: Kind::Point,
        first: TICKS,
        second: WORD,
        ..PLAIN
    },
    Row {
        byte: 0x33,
        kind: Kind::EndTask,
        ..PLAIN
    },
    Row {
        byte: 0x4f,
        kind: Kind::Sheet,
        first: WORD,
        ..PLAIN
    },
    Row {
        byte: 0x40,
        kind: Kind::Sheet,
        first: CODE,
        second: LONG,
        ..PLAIN
    },
    Row {
        byte: 0x41,
        kind: Kind::Sheet,
        first: CODE,
        ..PLAIN
    },
    Row {
        byte: 0x42,
        kind: Kind::Sheet,
        ..PLAIN
    },
];

// The numbers of a command's operands.
#[derive(Clone, Copy, Debug, PartialEq, Eq)]
pub struct Numbers {
    pub first: u32,
    pub second: u32,
    pub third: u32,
}

// Where a command stands in a listing.
#[derive(Clone, Copy, Debug, PartialEq, Eq)]
pub enum Context {
    // Between routines, or before the first task.
    Top,
    // After a task.
    Tasks,
    // In a routine.
    Body,
    // In a task, where a block is due.
    BlockDue,
    // In a task, after a block.
    AfterBlock,
}

#[derive(Clone, Copy, Debug, PartialEq, Eq)]
pub enum Command {
    Routine(u8),
    Work(u32),
    Call(u8),
    Either,
    Or,
    EndEither,
    Repeat(u16),
    EndRepeat,
    EndRoutine,
    Task {
        code: u8,
        period: u32,
        deadline: u32,
    },
    Block(u8),
    Point {
        ticks: u32,
        charge: u16,
    },
    EndTask,
    Sheet,
}

impl Operand {
    // Is a number in the operand's range?
    pub fn holds(self, n: u32) -> bool
        ensures { result ≡ holds self n }
    {
        (self.low..=self.top).contains(&n)
    }
}

impl Row {
    // The whole table.
    pub fn table() -> [Row; 17]
        ensures { result ≡ rows }
    {
        ROWS
    }

    // The table's row of a byte.
    pub fn of(byte: u8) -> Option<Row>
        ensures { result ≡ row_of rows byte }
    {
        // By value: so each row's widths and ranges are known where its byte is, at each command of each pass.
        for row in ROWS {
            if row.byte == byte {
                return Some(row);
            }
        }
        None
    }

    // The row of a byte that is a command allowed in a context.
    #[tactic(auto, unfolding(crate::specs::Commands::row_in))]
    pub fn decode(byte: u8, context: Context) -> Option<Row>
        ensures { result ≡ row_in context byte }
    {
        Row::of(byte).filter(|row| context.allows(row.kind))
    }

    // How many bytes the operands have.
    pub(crate) fn width(self) -> usize
        requires { Narrow self }
        ensures { result ≡ width_of self }
    {
        self.first.width + self.second.width + self.third.width
    }

    // The operands' numbers, from the bytes after the command's.
    #[tactic(auto, unfolding(crate::specs::Commands::numbers_of))]
    pub(crate) fn numbers(self, bytes: &[u8]) -> Numbers
        requires { (Narrow self) × (width_of self ≤ length bytes.now) }
        ensures { result ≡ numbers_of self bytes.now }
    {
        let second = self.first.width;
        let third = second + self.second.width;
        let end = third + self.third.width;
        Numbers {
            first: number(&bytes[0..second]),
            second: number(&bytes[second..third]),
            third: number(&bytes[third..end]),
        }
    }

    // Are all the operands in their ranges?
    pub(crate) fn holds(self, n: Numbers) -> bool
        ensures { result ≡ within self n }
    {
        self.first.holds(n.first)
            && self.second.holds(n.second)
            && self.third.holds(n.third)
            && n.third <= n.second
    }
}

impl Context {
    // Is a command allowed here?
    pub fn allows(self, kind: Kind) -> bool
        ensures { result ≡ allows kind self }
    {
        match kind {
            Kind::Routine => matches!(self, Context::Top),
            Kind::Work
            | Kind::Call
            | Kind::Either
            | Kind::Or
            | Kind::EndEither
            | Kind::Repeat
            | Kind::EndRepeat
            | Kind::EndRoutine => { matches!(self, Context::Body) }
            Kind::Task => matches!(self, Context::Top | Context::Tasks),
            Kind::Block => matches!(self, Context::BlockDue),
            Kind::Point | Kind::EndTask => matches!(self, Context::AfterBlock),
            Kind::Sheet => false,
        }
    }
}

impl Command {
    // The command of a kind with its operands.
    pub(crate) fn made(kind: Kind, n: Numbers) -> Command
        requires { (n.first ≤ top kind) × (n.second ≤ top_second kind) }
        ensures { result ≡ command_of kind n }
    {
        // What is required keeps each number within its narrower type, for which std has no `From`.
        match kind {
            Kind::Routine => Command::Routine(n.first as u8),
            Kind::Work => Command::Work(n.first),
            Kind::Call => Command::Call(n.first as u8),
            Kind::Either => Command::Either,
            Kind::Or => Command::Or,
            Kind::EndEither => Command::EndEither,
            Kind::Repeat => Command::Repeat(n.first as u16),
            Kind::EndRepeat => Command::EndRepeat,
            Kind::EndRoutine => Command::EndRoutine,
            Kind::Task => Command::Task {
                code: n.first as u8,
                period: n.second,
                deadline: n.third,
            },
            Kind::Block => Command::Block(n.first as u8),
            Kind::Point => Command::Point {
                ticks: n.first,
                charge: n.second as u16,
            },
            Kind::EndTask => Command::EndTask,
            Kind::Sheet => Command::Sheet,
        }
    }
}

// The number that the bytes write, low byte first. Their count is known only when it runs, and `from_le_bytes` wants a fixed one.
fn number(bytes: &[u8]) -> u32
    requires { length bytes.now ≤ 4 }
    ensures is { result ≡ low bytes.now }
    ensures fits { result < 2 ^ (8 * length bytes.now) }
{
    match bytes {
        [] => 0,
        [first, rest @ ..] => u32::from(*first) + 256 * number(rest),
    }
}
