// A multiple of a task's period, with the task's index. Its order is by moment, then by task.
#[derive(Clone, Copy, PartialEq, Eq, PartialOrd, Ord, Debug)]
pub(crate) struct Multiple {
    pub(crate) at: u32,
    pub(crate) task: usize,
}
