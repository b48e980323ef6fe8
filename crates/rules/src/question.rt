ghost use Rattle.std.specs.Prelude.{◌≡◌, ◌↔◌, IsSome, IfSome, take};
ghost use Rattle.rules.specs.Tables.{Asked, deadline_at};

use tasks::timings::Timing;

// What a rule is asked: a table of at most 32 tasks by falling priority, and a place of it, from 1 on.
#[derive(Clone, Copy, PartialEq, Eq, Debug)]
pub struct Question<'a> {
    pub tasks: &'a [Timing],
    pub place: usize,
    pub ghost asked: { Asked tasks.now place },
}

impl<'a> Question<'a> {
    // None for a table of more than 32 tasks, and for a place that the table does not have.
    pub fn new(tasks: &'a [Timing], place: usize) -> Option<Question<'a>>
        ensures some { IsSome result ↔ Asked tasks.now place }
        ensures holds { IfSome result (λ q. (q.tasks.now ≡ tasks.now) × (q.place ≡ place)) }
    {
        if tasks.len() <= 32 && (1..=tasks.len()).contains(&place) {
            Some(Question { tasks, place })
        } else {
            None
        }
    }

    // The deadline of the task at the place.
    pub fn deadline(&self) -> u32
        ensures { result ≡ deadline_at self.now.tasks.now self.now.place }
    {
        self.tasks[self.place - 1].deadline()
    }

    // The tasks down to the place.
    pub fn tasks_down(&self) -> &'a [Timing]
        ensures { result.now ≡ take self.now.place self.now.tasks.now }
    {
        &self.tasks[..self.place]
    }
}
