// Reading: the first fault in a listing's bytes, or its outline.
ghost use Rattle.std.specs.Prelude.{◌≡◌, suc, ◌+◌, ◌<◌, ◌≤◌, [], length, OnOk};
ghost use Rattle.reading.specs.Fitting.{Accepted};
ghost use Rattle.reading.specs.Listings.{routines_from, tasks_from, blocks_from, listing, outline_of, told, routine_heads, task_heads, heads_at, blocks_end, end_at};

use crate::heads::{Head, Heads};
use crate::outline::Outline;
use crate::walk::cost_run;
use commands::reader::Reader;
use commands::table::{Command, Context};
use faults::fault::ReadFault;

// The greatest length of a listing.
pub const LONGEST: usize = 32_768;

const NO_COSTS: [u32; 256] = [0; 256];

// The routines from the reader's place on. The reader is left at the first command after them; the walk over tasks refuses it, so there are
// two walks.
fn read_routines(reader: &mut Reader) -> Result<Heads, ReadFault>
    ensures same { reader.new.bytes.now ≡ reader.old.bytes.now }
    ensures told { heads_at result reader.new.at ≡ routine_heads (routines_from reader.old.bytes.now (suc (length reader.old.bytes.now)) [] reader.old.at) }
{
    let mut heads = Heads::new();
    'routines: while let Some((at, command)) = reader.next(Context::Top)? {
        let Command::Routine(code) = command else {
            reader.at = at;
            return Ok(heads);
        };
        let head = Head { code, at };
        heads.admit(head)?;
        let ran = cost_run(reader, &NO_COSTS, at, 9)?;
        let Command::EndRoutine = ran.last else {
            return Err(ReadFault::NotAllowed(ran.at));
        };
        heads.add(head);
    }
    Ok(heads)
}

// The blocks and points of a task, to its end.
fn read_blocks(reader: &mut Reader) -> Result<(), ReadFault>
    ensures same { reader.new.bytes.now ≡ reader.old.bytes.now }
    ensures told { end_at result reader.new.at ≡ blocks_end (blocks_from reader.old.bytes.now (suc (length reader.old.bytes.now)) 0 reader.old.at) }
    ensures forth { OnOk result (reader.old.at ≤ reader.new.at) }
{
    // Counted by hand, since a `for` over 65 turns would leave an end behind the loop that no listing reaches.
    let mut count = 0usize;
    'turns: loop {
        let (at, command) = reader
            .next(Context::BlockDue)?
            .ok_or(ReadFault::Open(reader.bytes.len()))?;
        let Command::Block(_) = command else {
            return Err(ReadFault::NotAllowed(at));
        };
        if count >= 64 {
            return Err(ReadFault::TooMany(at));
        }
        count += 1;
        let (place, follower) = reader
            .next(Context::AfterBlock)?
            .ok_or(ReadFault::Open(reader.bytes.len()))?;
        match follower {
            Command::Point { .. } => {}
            Command::EndTask => return Ok(()),
            _ => return Err(ReadFault::NotAllowed(place)),
        }
    }
}

// The tasks from the reader's place on.
fn read_tasks(reader: &mut Reader) -> Result<Heads, ReadFault>
    ensures same { reader.new.bytes.now ≡ reader.old.bytes.now }
    ensures told { heads_at result reader.new.at ≡ task_heads (tasks_from reader.old.bytes.now (suc (length reader.old.bytes.now)) [] reader.old.at) }
{
    let mut heads = Heads::new();
    'tasks: while let Some((at, command)) = reader.next(Context::Tasks)? {
        let Command::Task { code, .. } = command else {
            return Err(ReadFault::NotAllowed(at));
        };
        let head = Head { code, at };
        heads.admit(head)?;
        read_blocks(reader)?;
        heads.add(head);
    }
    Ok(heads)
}

// Reads a listing: the first fault in it, or the heads of its routines and tasks.
pub fn read(bytes: &[u8]) -> Result<Outline, ReadFault>
    ensures told { told result ≡ outline_of (listing bytes.now) }
    ensures accepted { Accepted bytes.now result }
{
    if bytes.len() > LONGEST {
        return Err(ReadFault::TooLong);
    }
    let mut reader = Reader::new(bytes);
    let routines = read_routines(&mut reader)?;
    let tasks = read_tasks(&mut reader)?;
    Ok(Outline { routines, tasks })
}
