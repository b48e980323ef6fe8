// Loading: the tasks of a listing, each block at its routine's cost.
ghost use Rattle.std.specs.Prelude.{◌≡◌, ℕ, suc, ◌<◌, List, map, length, Ok, nat_eq};
ghost use Rattle.reading.specs.Listings.{blocks_from, task_head};
ghost use Rattle.listing.specs.Places.{LoadPlaceTold};
ghost use Rattle.listing.specs.Loading.{Priced, BodyTold, TaskTold, TasksTold, LoadTold, LoadOnlyTold};
ghost use Rattle.std.specs.List.{AllByRecursion};
ghost use Rattle.reading.specs.Bodies.{TaskRead};
ghost use Rattle.listing.specs.Cycles.{RowSays};
ghost use Rattle.reading.specs.Runs.{cost_of_code};
ghost use Rattle.reading.specs.Trees.{Blocks, Task as TreeTask};

use crate::blocks::{marked_block, next_block, next_point, next_task};
use crate::codes::Codes;
use crate::cost::{Costs, cost};
use crate::parts::Parts;
use commands::reader::Reader;
use faults::fault::{CostFault, LoadFault, ReadFault};
use reading::heads::Heads;
use std::alloc::Global;
use tasks::blocks::Block;
use tasks::model::Task;
use tasks::points::Point;

// A walk that left the listing; over a costed listing none does.
fn strayed(at: usize) -> LoadFault {
    LoadFault::Cost(CostFault::Read(ReadFault::NotAllowed(at)))
}

// What loading needs: where memory is had, the listing's bytes, and what each routine costs, by its code.
#[derive(Clone, Copy)]
struct Loader<'a> {
    heap: Global,
    bytes: &'a [u8],
    costs: &'a [u32; 256],
}

impl Loader<'_> {
    // The blocks and points of a task, from the place after its command.
    fn parts(&self, place: usize) -> Result<Parts, LoadFault>
        ensures { (b : Blocks) (q : ℕ) → blocks_from self.now.bytes.now (suc (length self.now.bytes.now)) 0 place ≡ Ok (b, q) → Priced (cost_of_code self.now.costs.now) b → BodyTold (cost_of_code self.now.costs.now) b result }
    {
        let mut records = Vec::new(self.heap);
        let mut points = Vec::new(self.heap);
        let mut reader = Reader {
            bytes: self.bytes,
            at: place,
        };
        // Nothing is counted: the next block stands where the reader is left.
        'steps: loop {
            let head = next_block(&mut reader).ok_or(strayed(place))?;
            records.push(Block {
                cost: self.costs[usize::from(head.code)],
            })?;
            let Some((ticks, charge)) = next_point(&mut reader) else {
                return Ok(Parts {
                    blocks: records,
                    points,
                });
            };
            let point = Point::new(ticks, charge).map_err(|_| strayed(place))?;
            points.push(point)?;
        }
    }

    // The task at an offset.
    fn task(&self, at: usize) -> Result<Task, LoadFault>
        ensures { (t : TreeTask) → t.at ≡ at → TaskRead self.now.bytes.now t → Priced (cost_of_code self.now.costs.now) t.blocks → TaskTold (cost_of_code self.now.costs.now) t result }
    {
        let mut reader = Reader {
            bytes: self.bytes,
            at,
        };
        let clock = next_task(&mut reader).ok_or(strayed(at))?;
        let Parts { blocks, points } = self.parts(reader.at)?;
        Task::new(clock, blocks, points).map_err(|_| strayed(at))
    }

    // All tasks, in the listing's order.
    fn tasks(&self, heads: &Heads) -> Result<Vec<Task>, LoadFault>
        ensures { (ts : List TreeTask) → heads.now ≡ map task_head ts → AllByRecursion (TaskRead self.now.bytes.now) ts → AllByRecursion (λ (t : TreeTask). Priced (cost_of_code self.now.costs.now) t.blocks) ts → TasksTold (cost_of_code self.now.costs.now) ts result }
    {
        let mut tasks = Vec::new(self.heap);
        for head in heads.as_slice() {
            let task = self.task(head.at)?;
            tasks.push(task)?;
        }
        Ok(tasks)
    }
}

// The codes of routines that cost nothing.
fn free_codes(costs: &[u32; 256]) -> Codes
    ensures { RowSays result (λ c. nat_eq (cost_of_code costs.now c) 0) }
{
    Codes::those(|code| costs[usize::from(code)] == 0)
}

// Loads a listing: its tasks in order, each block at its routine's cost; or the first fault, or want of memory.
pub fn load(heap: Global, bytes: &[u8]) -> Result<Vec<Task>, LoadFault>
    ensures told { LoadTold bytes.now result }
    ensures places { LoadPlaceTold bytes.now result }
    ensures only { LoadOnlyTold bytes.now result }
{
    let Costs { outline, by_code } = cost(bytes)?;
    let free = free_codes(&by_code);
    if let Some((task, block)) = marked_block(bytes, &outline.tasks, &free) {
        return Err(LoadFault::FreeBlock {
            at: block.at,
            task: task.code,
        });
    }
    let loader = Loader {
        heap,
        bytes,
        costs: &by_code,
    };
    loader.tasks(&outline.tasks)
}
