use measures::measure::Measure;
use measures::measured::measure;
use selection::candidate::Candidate;
use selection::selecting::select;
use std::fmt;
use tasks::model::Task;

// What is asked of a task: the best points within a limit on the length of its stretches.
#[derive(Clone, Copy)]
pub struct Question<'a> {
    pub task: &'a Task,
    pub limit: Option<u32>,
}

impl Question<'_> {
    // The least value among the choices that fit, over every word of the task's points, and how many words there are.
    fn least<M: Measure>(&self) -> (Option<M>, u32) {
        let mut best: Option<M> = None;
        let mut words = 0u32;
        // A word is a number, and no item of the task.
        for word in 0..512u64 {
            let (Ok(longest), Ok(value)) = (self.task.longest(word), measure::<M>(self.task, word))
            else {
                continue;
            };
            words = words.saturating_add(1);
            if longest > self.limit.unwrap_or(u32::MAX) {
                continue;
            }
            best = Some(best.map_or(value, |least| least.min(value)));
        }
        (best, words)
    }

    // Whether the selection is as good as the best of all choices, and tells of its points what they give.
    fn agrees<M: Measure>(&self, places: &mut [Candidate<M>], best: Option<M>) -> bool {
        match (select(self.task, self.limit, places), best) {
            (Ok(None), None) => true,
            (Ok(Some(a)), Some(b)) => {
                a.value == b
                    && self.task.cost(a.points) == Ok(a.cost)
                    && self.task.longest(a.points) == Ok(a.longest)
                    && self.task.number(a.points) == Ok(a.number)
            }
            _ => false,
        }
    }
}

// How often the selection and a search over all choices were compared, and what came of it.
#[derive(Clone, Copy, PartialEq, Eq, Default, Debug)]
pub struct Tally {
    asked: u32,
    answered: u32,
    choices: u32,
    apart: u32,
}

impl Tally {
    pub(crate) fn compare<M: Measure>(
        &mut self,
        question: Question<'_>,
        places: &mut [Candidate<M>],
    ) {
        let (best, words) = question.least::<M>();
        self.asked = self.asked.saturating_add(1);
        self.choices = self.choices.saturating_add(words);
        self.answered = self.answered.saturating_add(u32::from(best.is_some()));
        let apart = !question.agrees(places, best);
        self.apart = self.apart.saturating_add(u32::from(apart));
    }
}

impl fmt::Display for Tally {
    fn fmt<W: fmt::Write>(&self, f: &mut fmt::Formatter<W>) -> fmt::Result {
        write!(
            f,
            "{} limits asked, {} with an answer, against {} choices, {} apart",
            self.asked, self.answered, self.choices, self.apart
        )
    }
}
