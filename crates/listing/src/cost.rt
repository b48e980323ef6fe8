// Costing: unknown routines, cycles of calls, and what each routine costs.
ghost use Rattle.std.specs.Prelude.{◌≡◌, ◌<◌, min, false, List, map, Some, None, Ok};
ghost use Rattle.std.specs.List.{AllByRecursion};
ghost use Rattle.commands.specs.declared.table.Context.TheVariants.{Top};
ghost use Rattle.reading.specs.Bodies.{BodyRead};
ghost use Rattle.listing.specs.Costing.{Capped};
ghost use Rattle.commands.specs.Commands.{after};
ghost use Rattle.reading.specs.Listings.{routine_head};
ghost use Rattle.reading.specs.Trees.{Routine, run_cost};
ghost use Rattle.reading.specs.Runs.{Ended, cost_of_code, run_at};
ghost use Rattle.listing.specs.Cycles.{entry};
ghost use Rattle.listing.specs.Costing.{cycle_from, dear_from, cost_by, cost_in, calls_in, TableTold, costing};
ghost use Rattle.listing.specs.Costed.{cost_told, costs_of};
ghost use Rattle.listing.specs.Reach.{CycleTold, OnlyTold};
ghost use Rattle.listing.specs.Places.{PlaceTold};
ghost use Rattle.listing.specs.Worked.{Worked};

use crate::blocks::{marked_block, unlisted};
use crate::calls::Calls;
use crate::codes::Codes;
use crate::cycles::reached;
use commands::reader::Reader;
use commands::table::Context;
use faults::fault::CostFault;
use reading::heads::{Head, Heads};
use reading::outline::Outline;
use reading::read::read;
use reading::walk::cost_run;
use std::marker::Model;

// The first routine that reaches itself.
fn first_cycle(rows: &[Codes; 32], routines: &Heads) -> Option<Head>
    ensures { result ≡ cycle_from (entry rows.now) 0 routines.now }
{
    routines
        .as_slice()
        .iter()
        .zip(rows)
        .find(|(head, row)| row.has(head.code))
        .map(|(head, _)| *head)
}

// The first routine that costs more than 1,000,000 ticks.
fn first_dear(costs: &[u32; 256], routines: &Heads) -> Option<Head>
    ensures { result ≡ dear_from (cost_of_code costs.now) routines.now }
{
    routines
        .as_slice()
        .iter()
        .find(|head| costs[usize::from(head.code)] > 1_000_000)
        .copied()
}

// The routines of a listing: its bytes, and where the routines stand in them.
#[derive(Clone, Copy)]
struct Routines<'a> {
    bytes: &'a [u8],
    heads: &'a Heads,
}

impl Routines<'_> {
    // The codes that each routine calls, or the first call of a code that no routine has.
    fn calls(&self) -> Result<[Codes; 32], CostFault>
        ensures { TableTold self.now.heads.now (calls_in self.now.bytes.now self.now.heads.now) result }
    {
        // One row a routine, in the order of the heads: an array beside them, since costing takes no memory.
        let mut rows = [Codes::none(); 32];
        for (i, head) in self.heads.as_slice().iter().enumerate() {
            let calls = Calls::of(self.bytes, self.heads, head.at);
            if let Some(call) = calls.unknown {
                return Err(CostFault::Unknown {
                    at: call.at,
                    code: call.code,
                });
            }
            rows[i] = calls.marks;
        }
        Ok(rows)
    }

    // What the routine at an offset costs, at most 1,000,001, where the called ones cost what the table says.
    fn cost_at(&self, costs: &[u32; 256], at: usize) -> u32
        ensures { (e : Ended) → run_at 9 self.now.bytes.now at (after Top self.now.bytes.now at) ≡ Ok e → result ≡ min (run_cost (cost_of_code costs.now) e.run) 1000001 }
    {
        let mut reader = Reader {
            bytes: self.bytes,
            at,
        };
        let _ = reader.next(Context::Top);
        cost_run(&mut reader, costs, at, 9).map_or(0, |ran| ran.cost)
    }

    // One pass: what each routine costs, by the costs of the pass before.
    fn pass(&self, costs: &[u32; 256]) -> [u32; 256]
        ensures { (rs : List Routine) → self.now.heads.now ≡ map routine_head rs → AllByRecursion (BodyRead self.now.bytes.now) rs → Capped result (cost_by (cost_of_code costs.now) rs) }
    {
        let mut next = [0u32; 256];
        // Over the routines and not over all codes, of which few have one; from the last, as the definition takes the first of a code.
        for i in (0..self.heads.len()).rev() {
            let head = self.heads.get(i);
            next[usize::from(head.code)] = self.cost_at(costs, head.at);
        }
        next
    }

    // What each routine costs after 32 passes.
    fn settled(&self) -> [u32; 256]
        ensures { (rs : List Routine) → self.now.heads.now ≡ map routine_head rs → AllByRecursion (BodyRead self.now.bytes.now) rs → Capped result (cost_in rs 32) }
    {
        let mut costs = [0u32; 256];
        // A plain count of passes: a fold over it would say no more.
        for turn in 0..32usize {
            costs = self.pass(&costs);
        }
        costs
    }
}

// What costing finds: the outline of a listing, and what each routine costs, by its code: an array, in which each code has its place.
#[derive(Clone, Copy, Debug, PartialEq, Eq)]
pub struct Costs {
    pub outline: Outline,
    pub by_code: [u32; 256],
}

impl Model for Costs {
    ghost use Rattle.std.specs.Prelude.{◌≡◌, length};
    ghost use Rattle.listing.specs.Values.{Costs};

    ghost Value = { Costs };

    ghost view = { λ c. record { outline = c.outline; by_code = c.by_code } };

    ghost invariant = { λ c. length c.by_code ≡ 256 };

    ghost inverse = { λ c. record { outline = c.outline; by_code = c.by_code } };
}

// Reads a listing and costs its routines: a call of an unknown routine comes first, then a cycle, then a routine too dear.
pub fn cost(bytes: &[u8]) -> Result<Costs, CostFault>
    ensures told { cost_told result ≡ costs_of (costing bytes.now) }
    ensures cycles { CycleTold bytes.now result }
    ensures places { PlaceTold bytes.now result }
    ensures only { OnlyTold bytes.now result }
{
    let outline = read(bytes)?;
    let routines = Routines {
        bytes,
        heads: &outline.routines,
    };
    let calls = routines.calls()?;
    let strange = unlisted(&outline.routines);
    if let Some((_, block)) = marked_block(bytes, &outline.tasks, &strange) {
        return Err(CostFault::Unknown {
            at: block.at,
            code: block.code,
        });
    }
    let rows = reached(&calls, &outline.routines);
    if let Some(head) = first_cycle(&rows, &outline.routines) {
        return Err(CostFault::Cycle {
            at: head.at,
            routine: head.code,
        });
    }
    let by_code = routines.settled();
    if let Some(head) = first_dear(&by_code, &outline.routines) {
        return Err(CostFault::TooDear {
            at: head.at,
            routine: head.code,
        });
    }
    Ok(Costs { outline, by_code })
}

// Two worked costs, as a fact over the definitions.
pub fn worked_costs()
    ensures { Worked }
{}
