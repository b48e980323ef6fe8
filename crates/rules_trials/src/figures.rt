ghost use Rattle.std.specs.Prelude.{◌<◌};

use rules::answer::Answer;
use rules::deadline::Deadline;
use rules::exact::Exact;
use rules::question::Question;
use rules::rule::Rule;
use std::{array, fmt};
use tasks::refusals::Refusal;
use tasks::timings::Timing;

// What both rules tell of one place.
#[derive(Clone, Copy, PartialEq, Eq, Debug)]
struct Line {
    exact: Answer,
    deadline: Answer,
}

impl Line {
    fn told(question: Question<'_>) -> Line {
        Line {
            exact: Exact.ask(question),
            deadline: Deadline.ask(question),
        }
    }
}

// The worked figures, as the rules tell them.
#[derive(Clone, Copy, PartialEq, Eq, Debug)]
pub struct Figures {
    four: [Line; 4],
    overloaded: Answer,
}

impl fmt::Display for Figures {
    fn fmt<W: fmt::Write>(&self, f: &mut fmt::Formatter<W>) -> fmt::Result {
        for (i, line) in self.four.iter().enumerate() {
            writeln!(
                f,
                "place {}: exact {} at {}, deadline {}",
                i + 1,
                line.exact.tolerance,
                line.exact.moment,
                line.deadline.tolerance
            )?;
        }
        write!(f, "overloaded: exact {}", self.overloaded.tolerance)
    }
}

// Four tasks with periods and deadlines 85, 92, 127 and 925, and two that want more than there is.
pub fn told() -> Result<Figures, Refusal> {
    let four = [
        Timing::new(85, 85, 29)?,
        Timing::new(92, 92, 14)?,
        Timing::new(127, 127, 29)?,
        Timing::new(925, 925, 32)?,
    ];
    let two = [Timing::new(10, 10, 6)?, Timing::new(12, 12, 6)?];
    Ok(Figures {
        four: array::from_fn(
            |i: usize| -> Line
                requires { i < 4 }
            {
                Line::told(Question {
                    tasks: &four,
                    place: i + 1,
                })
            },
        ),
        overloaded: Exact.ask(Question {
            tasks: &two,
            place: 2,
        }),
    })
}
