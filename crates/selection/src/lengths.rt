ghost use Rattle.std.specs.Prelude.{◌≡◌, ℕ, ◌+◌, ◌≤◌, slice_index};
ghost use Rattle.tasks.specs.Tasks.{cost_of_block, point_at, point_count};
ghost use Rattle.selection.specs.Limits.{within};
ghost use Rattle.selection.specs.Linked.{reaches};
ghost use Rattle.selection.specs.Running.{cost_before, stretch_from};

use crate::limited::Limited;
use tasks::model::Task;

// The cost of the blocks before each index.
pub(crate) fn running_costs(task: &Task) -> [u32; 65]
    ensures { (k : ℕ) → k ≤ point_count task.now + 1 → slice_index result k ≡ cost_before (cost_of_block task.now) k }
{
    let mut costs = [0u32; 65];
    for (i, block) in task.blocks().iter().enumerate() {
        costs[i + 1] = costs[i] + block.cost;
    }
    costs
}

// An end is a plain number beside a task, so that it is a block of the task is asked by each method.
impl Limited<'_> {
    // The length of the stretch from one block to another, by their indices.
    pub(crate) fn length(&self, start: usize, end: usize) -> u32
        requires { (start ≤ end) × (end ≤ point_count self.now.task.now) }
        ensures { result ≡ stretch_from (cost_of_block self.now.task.now) (point_at self.now.task.now) end start }
    {
        let blocks = self.costs[end + 1] - self.costs[start];
        if start == 0 {
            blocks
        } else {
            self.task.points()[start - 1].ticks() + blocks
        }
    }

    // Whether that stretch is within the limit.
    pub(crate) fn reaches(&self, start: usize, end: usize) -> bool
        requires { (start ≤ end) × (end ≤ point_count self.now.task.now) }
        ensures { result ≡ reaches self.now.task.now self.now.limit end start }
    {
        is_within(self.limit, self.length(start, end))
    }
}

// Whether a stretch is within a limit; with no limit nothing is too long.
fn is_within(limit: Option<u32>, length: u32) -> bool
    ensures { result ≡ within limit length }
{
    limit.is_none_or(|most| length <= most)
}
