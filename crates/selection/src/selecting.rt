ghost use Rattle.std.specs.Prelude.{◌≡◌, length, IfOk};
ghost use Rattle.heap.specs.Orders.{before_by};
ghost use Rattle.selection.specs.Answers.{answer_of, BestWithin};

use crate::answer::Selection;
use crate::candidate::Candidate;
use crate::lengths::running_costs;
use crate::limited::Limited;
use measures::measure::Measure;
use tasks::model::Task;
use tasks::refusals::Refusal;

// The best points of a task under which no stretch is longer than the limit, or none where no points will do. It is lent working places for
// the candidates: fewer than 65 are refused, and what they hold afterwards is open.
pub fn select<M: Measure>(
    task: &Task,
    limit: Option<u32>,
    places: &mut [Candidate<M>],
) -> Result<Option<Selection<M>>, Refusal>
    ensures answer { result ≡ answer_of (before_by M.cmp) M.Measure.none M.Measure.join task.now limit (length places.old) }
    ensures best { IfOk result (BestWithin (before_by M.cmp) M.Measure.none M.Measure.join task.now limit) }
{
    if places.len() < 65 {
        return Err(Refusal::TooSmall);
    }
    let limited = Limited {
        task,
        limit,
        costs: running_costs(task),
    };
    let links = limited.link(places);
    // No answer is one of the answers, so `?` cannot pass it on.
    let Some(value) = links.value else {
        return Ok(None);
    };
    let blocks = task.block_count();
    let mut points = 0u64;
    let mut longest = 0u32;
    let mut end = blocks;
    // From an end to the start that is chosen for it: no iterator goes this way.
    while end > 0 {
        let start = links.starts[end - 1];
        longest = longest.max(limited.length(start, end - 1));
        if start > 0 {
            points += 1 << (start - 1);
        }
        end = start;
    }
    Ok(Some(Selection {
        points,
        number: points.count_ones(),
        value,
        cost: limited.costs[blocks] + value.ticks(),
        longest,
    }))
}
