// Runs and items over a listing's bytes: they call each other, and the remaining depth falls. One walk tests the commands and
// adds up the costs, given what each routine costs so far.
ghost use Rattle.std.specs.Prelude.{◌≡◌, ◌+◌, ◌*◌, ◌<◌, ◌≤◌, min, max, length, IfOk};
ghost use Rattle.reading.specs.Runs.{ends, item_of, run_at, cost_of_code, RunTold, ItemTold};

use commands::reader::Reader;
use commands::table::{Command, Context};
use faults::fault::ReadFault;

// A run's cost, the command that ended it, and that command's offset.
#[derive(Clone, Copy, Debug, PartialEq, Eq)]
pub struct Ran {
    pub cost: u32,
    pub last: Command,
    pub at: usize,
}

// One above the greatest cost that is accepted.
pub const ABOVE: u64 = 1_000_001;

// The cost so far with that of one more item.
fn added(total: u32, cost: u32) -> u32
    ensures { result ≡ min (total + cost) 1000001 }
{
    capped(u64::from(total) + u64::from(cost))
}

fn capped(cost: u64) -> u32
    ensures { result ≡ min cost 1000001 }
{
    // At most 1,000,001; std has no `From<u64>` for `u32`.
    cost.min(ABOVE) as u32
}

fn ends_run(command: Command) -> bool
    ensures { result ≡ ends command }
{
    matches!(
        command,
        Command::Or | Command::EndEither | Command::EndRepeat | Command::EndRoutine
    )
}

// The run at the reader's place, which the command at `opener` begins, with `depth` levels allowed. The costs stand by code in an array,
// in which each of the 256 codes has its place.
#[cycle(cost_item_cost_run)]
pub fn cost_run(
    reader: &mut Reader,
    costs: &[u32; 256],
    opener: usize,
    depth: u32,
) -> Result<Ran, ReadFault>
    ensures same { reader.new.bytes.now ≡ reader.old.bytes.now }
    ensures told { RunTold (cost_of_code costs.now) result reader.new.at (run_at depth reader.old.bytes.now opener reader.old.at) }
    ensures within { IfOk result (λ p. (p.cost ≤ 1000001) × (reader.old.at < reader.new.at) × (reader.new.at ≤ length reader.old.bytes.now)) }
{
    if depth == 0 {
        return Err(ReadFault::TooMany(opener));
    }
    let mut total = 0;
    // Nothing is counted: an item ends where its own walk leaves the reader.
    'items: loop {
        // Each command of each pass goes through here, and `ok_or` would copy it once more.
        let Some((at, command)) = reader.next(Context::Body)? else {
            return Err(ReadFault::Open(reader.bytes.len()));
        };
        if ends_run(command) {
            return Ok(Ran {
                cost: total,
                last: command,
                at,
            });
        }
        let cost = cost_item(reader, costs, at, command, depth - 1)?;
        total = added(total, cost);
    }
}

// The item that the command at `at` begins.
#[cycle(cost_item_cost_run)]
fn cost_item(
    reader: &mut Reader,
    costs: &[u32; 256],
    at: usize,
    command: Command,
    depth: u32,
) -> Result<u32, ReadFault>
    ensures same { reader.new.bytes.now ≡ reader.old.bytes.now }
    ensures told { ItemTold (cost_of_code costs.now) result reader.new.at (item_of (run_at depth reader.old.bytes.now) reader.old.bytes.now at command reader.old.at) }
    ensures within { IfOk result (λ p. (p ≤ 1000001) × (reader.old.at ≤ reader.new.at)) }
{
    match command {
        Command::Work(ticks) => Ok(capped(u64::from(ticks))),
        Command::Call(code) => Ok(capped(u64::from(costs[usize::from(code)]))),
        Command::Repeat(turns) => {
            let ran = cost_run(reader, costs, at, depth)?;
            match ran.last {
                Command::EndRepeat => Ok(capped(u64::from(turns) * u64::from(ran.cost))),
                _ => Err(ReadFault::NotAllowed(ran.at)),
            }
        }
        Command::Either => {
            let mut best = 0;
            // Nothing is counted: an arm ends where its own walk leaves the reader.
            'arms: loop {
                let ran = cost_run(reader, costs, at, depth)?;
                best = ran.cost.max(best);
                match ran.last {
                    Command::Or => {}
                    Command::EndEither => return Ok(best),
                    _ => return Err(ReadFault::NotAllowed(ran.at)),
                }
            }
        }
        _ => Err(ReadFault::NotAllowed(at)),
    }
}
