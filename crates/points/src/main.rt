// Reads a task and limits on the length of its stretches, and prints the best points for each limit.
#![tactic(auto)]

mod draft;
mod line;
mod problem;
mod report;

use anyhow::anyhow;
use draft::Draft;
use line::read_line;
use problem::Problem;
use report::print_answer;
use std::process::ExitCode;

// The input, line by line; a problem is told with the number of its line.
fn read(rt: &HostRuntime) -> anyhow::Result<Draft> {
    let mut draft = Draft::new(rt.alloc());
    for (i, text) in rt.lines(rt.alloc()).enumerate() {
        let text = text?;
        // The last 32-bit number is told for every line from there on.
        let number = u32::try_from(i).unwrap_or(u32::MAX).saturating_add(1);
        let added = read_line(text.as_str()).and_then(|line| draft.add(line));
        if let Err(problem) = added {
            return Err(anyhow!(format!(in rt.alloc(); "line {number}: {problem}")?));
        }
    }
    Ok(draft)
}

fn run(rt: &HostRuntime) -> anyhow::Result<()> {
    let (task, asks) = read(rt)?.finish()?;
    for ask in &asks {
        print_answer(rt, &task, *ask)?;
    }
    Ok(())
}

fn main(rt: HostRuntime) -> ExitCode {
    match run(&rt) {
        Ok(()) => ExitCode::SUCCESS,
        Err(e) => {
            let _ = eprintln!(rt; "points: {e}");
            ExitCode::FAILURE
        }
    }
}

#[cfg(test)]
mod tests {
    use super::*;
    use crate::line::{By, Line};

    // Lines that say something, and lines with a problem.
    #[test]
    fn lines(rt: HostRuntime) {
        assert_eq!(rt; read_line("  # a remark"), Ok(Line::Blank));
        assert_eq!(rt;
            read_line("task 7 100 90"),
            Ok(Line::Task {
                code: 7,
                period: 100,
                deadline: 90,
            })
        );
        assert_eq!(rt;
            read_line("limit none charge"),
            Ok(Line::Limit {
                limit: None,
                by: By::TicksCharge,
            })
        );
        assert_eq!(rt; read_line("point 1"), Err(Problem::MissingNumber));
        assert_eq!(rt; read_line("block two"), Err(Problem::NotANumber));
        assert_eq!(rt; read_line("block 2 3"), Err(Problem::TooManyWords));
        assert_eq!(rt; read_line("rest 2"), Err(Problem::UnknownWord));
    }

    // A task that is put together line by line, with each line out of place refused.
    #[test]
    fn drafts(rt: HostRuntime) {
        let mut draft = Draft::new(rt.alloc());
        assert_eq!(rt; draft.add(Line::Block { cost: 1 }), Err(Problem::TaskFirst));
        assert_eq!(rt;
            draft.add(Line::Task {
                code: 256,
                period: 100,
                deadline: 90,
            }),
            Err(Problem::Code)
        );
        assert_eq!(rt;
            draft.add(Line::Task {
                code: 7,
                period: 100,
                deadline: 101,
            }),
            Err(Problem::Clock)
        );
        assert_eq!(rt;
            draft.add(Line::Task {
                code: 7,
                period: 100,
                deadline: 90,
            }),
            Ok(())
        );
        assert_eq!(rt;
            draft.add(Line::Point {
                ticks: 1,
                charge: 0,
            }),
            Err(Problem::PointHere)
        );
        assert_eq!(rt;
            draft.add(Line::Limit {
                limit: None,
                by: By::Ticks,
            }),
            Err(Problem::LimitHere)
        );
        assert_eq!(rt;
            draft.add(Line::Block { cost: 1_000_001 }),
            Err(Problem::Cost)
        );
        assert_eq!(rt; draft.add(Line::Block { cost: 1 }), Ok(()));
        assert_eq!(rt; draft.add(Line::Block { cost: 1 }), Err(Problem::BlockHere));
        assert_eq!(rt;
            draft.add(Line::Point {
                ticks: 1_000_001,
                charge: 0,
            }),
            Err(Problem::Ticks)
        );
        assert_eq!(rt;
            draft.add(Line::Point {
                ticks: 1,
                charge: 65_536,
            }),
            Err(Problem::Charge)
        );
    }
}
