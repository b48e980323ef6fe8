// The codes that routines reach by calls, at once or through others. A row for each routine lies in an array of 32, since costing takes no
// memory.
ghost use Rattle.std.specs.Prelude.{◌≡◌, ◌<◌, length};
ghost use Rattle.listing.specs.Cycles.{entry, through, closed, code_at, Tabled};

use crate::codes::Codes;
use reading::heads::Heads;

// One more routine to go through: the one at `k`, which has the code.
fn pass(rows: &[Codes; 32], k: usize, code: u8) -> [Codes; 32]
    requires { k < 32 }
    ensures told { Tabled result (through (entry rows.now) k code) }
    ensures small { code < 256 }
{
    let mut next = *rows;
    // By their places: a `map` over the array would move each row several times.
    for i in 0..32usize {
        next[i] = rows[i].through(code, &rows[k]);
    }
    next
}

// The codes that each routine reaches, from those that it calls.
pub(crate) fn reached(calls: &[Codes; 32], routines: &Heads) -> [Codes; 32]
    ensures { Tabled result (closed (entry calls.now) (code_at routines.now) (length routines.now)) }
{
    let mut rows = *calls;
    for (k, head) in routines.as_slice().iter().enumerate() {
        rows = pass(&rows, k, head.code);
    }
    rows
}
