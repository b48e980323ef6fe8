ghost use Rattle.std.specs.Prelude.{◌≡◌, if◌then◌else◌, sum_by, int_lt};
ghost use Rattle.std.proofs.Common.{ap, ◌∙◌, arith, rules};
ghost use Rattle.std.proofs.lemmas.Int.{ints};
ghost use Rattle.heap.specs.Held.{size, room, held};
ghost use Rattle.rules.specs.Slacks.{slack_at};
ghost use Rattle.rules.specs.Tables.{deadline_at};
ghost use Rattle.rules.specs.Tolerances.{exact_moment, exact_tolerance, FirstGreatest};
ghost use Rattle.rules.specs.Walks.{Holds, carried};
ghost use Rattle.rules.specs.Peaks.{peak};
ghost use Rattle.rules.specs.Demands.{deadline_agrees, slack_agrees, deadline_kept, deadline_first, slack_falls, deadline_small, slack_low, slack_high};
ghost use Rattle.rules.specs.PeaksLemmas.{peak_same, peak_from, peak_within, peak_most};

use crate::answer::Answer;
use crate::multiple::Multiple;
use crate::question::Question;
use crate::rule::Rule;
use crate::slack::left;
use heap::Heap;

// The greatest slack over all moments from 1 to the deadline, and the first moment that has it.
#[derive(Clone, Copy, PartialEq, Eq, Debug)]
pub struct Exact;

impl Rule for Exact {
    ghost slack = { λ s ts p t. slack_at ts p t };

    ghost tolerance = { λ s ts p. exact_tolerance ts p };

    ghost moment = { λ s ts p. exact_moment ts p };

    ghost agrees = { Prim.search rules };

    ghost prefix = { λ s ts us p a b e.
        let by = deadline_agrees ts us p a.first e in
        let same = peak_same (slack_at ts p) (slack_at us p) (λ t. slack_agrees ts us p t e) (deadline_at ts p) ∙ ap (peak (slack_at us p)) by in
        (λ t. slack_agrees ts us p t e, slack_agrees ts us p (peak (slack_at ts p) (deadline_at ts p)) e ∙ ap (slack_at us p) same, same) };

    ghost monotone = { λ s ts us p a b h.
        let d = deadline_at us p in
        let m = peak (slack_at us p) d in
        let by = deadline_kept ts us p a h in
        let less = slack_falls ts us p m h in
        let within = peak_within (slack_at us p) d (deadline_first us p) in
        let more = peak_most (slack_at ts p) (deadline_at ts p) m (peak_from (slack_at us p) d) (omega arith) in
        omega (arith, ints) };

    ghost bounded = { λ s ts p a.
        let d = deadline_at ts p in
        let m = peak (slack_at ts p) d in
        let small = deadline_small ts p in
        let within = peak_within (slack_at ts p) d (deadline_first ts p) in
        (slack_low ts p m a (omega arith), slack_high ts p m (omega arith)) };

    fn ask(&self, question: Question<'_>) -> Answer
        ensures tolerance { result.tolerance ≡ exact_tolerance question.entry.tasks.now question.entry.place }
        ensures moment { result.moment ≡ exact_moment question.entry.tasks.now question.entry.place }
        ensures greatest { FirstGreatest question.entry.tasks.now question.entry.place result.moment }
    {
        // A slot for each of 32 tasks: a rule takes no memory.
        let mut slots = [Multiple { at: 0, task: 0 }; 32];
        let mut heap = Heap::new(&mut slots);
        let first = release(&mut heap, question);
        walk(&mut heap, question, first)
    }
}

// Puts the period of each task down to the place into the heap, and gives the demand up to the first of them.
fn release(heap: &mut Heap<'_, Multiple>, question: Question<'_>) -> u64
    requires empty { size heap.old ≡ 0 }
    requires room { room heap.old ≡ 32 }
    ensures size { size heap.new ≡ question.entry.place }
    ensures holds { Holds question.entry.tasks.now question.entry.place 0 (held heap.new) }
    ensures demand { result ≡ sum_by (carried question.entry.tasks.now) (held heap.new) }
{
    let mut first: u64 = 0;
    for (i, task) in question.tasks_down().iter().enumerate() {
        first += u64::from(task.cost());
        let _ = heap.push(Multiple {
            at: task.period(),
            task: i,
        });
    }
    first
}

// Goes through the multiples below the deadline in rising order, and then to the deadline. Between one multiple and the next the demand
// stays, so the slack only grows, and no other moment has to be looked at. It stops as soon as even the deadline, at the demand so far,
// would have no more than the best.
fn walk(heap: &mut Heap<'_, Multiple>, question: Question<'_>, first: u64) -> Answer
    requires size { size heap.old ≡ question.place }
    requires holds { Holds question.tasks.now question.place 0 (held heap.old) }
    requires demand { first ≡ sum_by (carried question.tasks.now) (held heap.old) }
    ensures tolerance { result.tolerance ≡ exact_tolerance question.entry.tasks.now question.entry.place }
    ensures moment { result.moment ≡ exact_moment question.entry.tasks.now question.entry.place }
{
    let deadline = question.deadline();
    let mut demand = first;
    let mut best = Answer {
        tolerance: left(1, demand),
        moment: 1,
    };
    // The next multiple is known only once this one is replaced in the heap: no iterator goes this way.
    while best.tolerance < left(deadline, demand) {
        let Some(next) = heap.peek() else {
            return best;
        };
        if deadline <= next.at {
            return Answer {
                tolerance: left(deadline, demand),
                moment: deadline,
            };
        }
        best = judged(best, next.at, left(next.at, demand));
        let task = &question.tasks[next.task];
        demand += u64::from(task.cost());
        let _ = heap.replace_top(Multiple {
            at: next.at + task.period(),
            ..next
        });
    }
    best
}

// The best answer so far, or a later moment that has more slack.
fn judged(best: Answer, moment: u32, slack: i64) -> Answer
    ensures tolerance { result.tolerance ≡ (if int_lt best.tolerance slack then slack else best.tolerance) }
    ensures moment { result.moment ≡ (if int_lt best.tolerance slack then moment else best.moment) }
{
    if best.tolerance < slack {
        Answer {
            tolerance: slack,
            moment,
        }
    } else {
        best
    }
}
