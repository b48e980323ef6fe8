ghost use Rattle.std.specs.Prelude.{◌≡◌};
ghost use Rattle.tasks.specs.Choices.{told};
ghost use Rattle.tasks.specs.Under.{under};
ghost use Rattle.measures.specs.Measuring.{measure_of};

use crate::measure::Measure;
use tasks::choices::is_chosen;
use tasks::model::Task;
use tasks::refusals::Refusal;

// What a word measures in a task: its points there, joined in rising order. A word with a bit past the last point is refused.
pub fn measure<M: Measure>(task: &Task, word: u64) -> Result<M, Refusal>
    ensures { result ≡ under task.now word (measure_of M.Measure.none M.Measure.join task.now (told word)) }
{
    task.number(word)?;
    let mut value = M::none();
    for (i, p) in task.points().iter().enumerate() {
        if is_chosen(word, i) {
            value = value.join(*p);
        }
    }
    Ok(value)
}
