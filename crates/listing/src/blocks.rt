// Walks through a task's blocks.
ghost use Rattle.std.specs.Prelude.{◌≡◌, ℕ, ◌<◌, ◌≤◌, not, List, map, length, IfSome, Ok, OnSome};
ghost use Rattle.commands.specs.declared.table.Context.TheVariants.{Tasks, BlockDue, AfterBlock};
ghost use Rattle.commands.specs.Commands.{answer, after};
ghost use Rattle.std.specs.List.{AllByRecursion};
ghost use Rattle.reading.specs.Bodies.{TaskRead};
ghost use Rattle.listing.specs.Cycles.{RowSays};
ghost use Rattle.reading.specs.Heads.{used};
ghost use Rattle.reading.specs.Listings.{task_head};
ghost use Rattle.reading.specs.Trees.{Blocks, Task, block_heads};
ghost use Rattle.listing.specs.Marks.{task_of, first_marked, marked_in};
ghost use Rattle.reading.specs.Steps.{block_of, point_of, blocks_at};

use crate::codes::Codes;
use crate::parts::Clock;
use commands::reader::Reader;
use commands::table::{Command, Context};
use reading::heads::{Head, Heads};

// The task at the reader's place, if one is there.
pub(crate) fn next_task(reader: &mut Reader) -> Option<Clock>
    ensures same { reader.new.bytes.now ≡ reader.old.bytes.now }
    ensures moved { reader.new.at ≡ after Tasks reader.old.bytes.now reader.old.at }
    ensures told { result ≡ task_of (answer Tasks reader.old.bytes.now reader.old.at) }
{
    match reader.next(Context::Tasks).ok()?? {
        (
            _,
            Command::Task {
                code,
                period,
                deadline,
            },
        ) => Some(Clock {
            code,
            period,
            deadline,
        }),
        _ => None,
    }
}

// The block at the reader's place, if one is there.
pub(crate) fn next_block(reader: &mut Reader) -> Option<Head>
    ensures same { reader.new.bytes.now ≡ reader.old.bytes.now }
    ensures moved { reader.new.at ≡ after BlockDue reader.old.bytes.now reader.old.at }
    ensures told { result ≡ block_of (answer BlockDue reader.old.bytes.now reader.old.at) }
    ensures forth { IfSome result (λ h. (h.code < 256) × (reader.old.at < reader.new.at) × (reader.new.at ≤ length reader.old.bytes.now)) }
{
    match reader.next(Context::BlockDue).ok()?? {
        (at, Command::Block(code)) => Some(Head { code, at }),
        _ => None,
    }
}

// The point at the reader's place, if one is there: its ticks and its charge.
pub(crate) fn next_point(reader: &mut Reader) -> Option<(u32, u16)>
    ensures same { reader.new.bytes.now ≡ reader.old.bytes.now }
    ensures moved { reader.new.at ≡ after AfterBlock reader.old.bytes.now reader.old.at }
    ensures told { result ≡ point_of (answer AfterBlock reader.old.bytes.now reader.old.at) }
    ensures forth { OnSome result ((reader.old.at < reader.new.at) × (reader.new.at ≤ length reader.old.bytes.now)) }
{
    match reader.next(Context::AfterBlock).ok()?? {
        (_, Command::Point { ticks, charge }) => Some((ticks, charge)),
        _ => None,
    }
}

// The first block of the task at an offset whose routine's code is marked.
pub(crate) fn first_block(bytes: &[u8], at: usize, marks: &Codes) -> Option<Head>
    ensures { (b : Blocks) (q : ℕ) → blocks_at bytes.now at ≡ Ok (b, q) → result ≡ first_marked marks.now (block_heads b) }
{
    let mut reader = Reader { bytes, at };
    let _ = reader.next(Context::Tasks);
    // Nothing is counted: the next block stands where the reader is left.
    'steps: loop {
        let head = next_block(&mut reader)?;
        if marks.has(head.code) {
            return Some(head);
        }
        next_point(&mut reader)?;
    }
}

// The first block, over all tasks, whose routine's code is marked, and before it the head of its task.
pub(crate) fn marked_block(bytes: &[u8], tasks: &Heads, marks: &Codes) -> Option<(Head, Head)>
    ensures { (ts : List Task) → tasks.now ≡ map task_head ts → AllByRecursion (TaskRead bytes.now) ts → result ≡ marked_in marks.now ts }
{
    for task in tasks.as_slice() {
        if let Some(block) = first_block(bytes, task.at, marks) {
            return Some((*task, block));
        }
    }
    None
}

// The codes that no routine has.
pub(crate) fn unlisted(routines: &Heads) -> Codes
    ensures { RowSays result (λ c. not (used c routines.now)) }
{
    Codes::those(|code| !routines.contains(code))
}
