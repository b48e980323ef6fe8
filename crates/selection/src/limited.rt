ghost use Rattle.std.specs.Prelude.{◌≡◌, ℕ, ◌+◌, ◌≤◌, slice_index};
ghost use Rattle.tasks.specs.Tasks.{cost_of_block, point_count};
ghost use Rattle.selection.specs.Running.{cost_before};

use tasks::model::Task;

// A task, a limit on the length of its stretches, and the cost of the blocks before each index.
#[derive(Clone, Copy)]
pub(crate) struct Limited<'a> {
    pub(crate) task: &'a Task,
    pub(crate) limit: Option<u32>,
    // an array, since choosing takes no memory
    pub(crate) costs: [u32; 65],
    ghost running: { (k : ℕ) → k ≤ point_count task.now + 1 → slice_index costs k ≡ cost_before (cost_of_block task.now) k },
}
