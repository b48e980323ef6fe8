use crate::draft::Ask;
use crate::line::By;
use anyhow::anyhow;
use measures::measure::Measure;
use measures::values::{Ticks, TicksCharge};
use selection::answer::Selection;
use selection::candidate::Candidate;
use selection::selecting::select;
use std::fmt;
use tasks::choices::Stretch;
use tasks::model::Task;
use tasks::refusals::Refusal;

// What is printed of a selection, whatever its measure.
#[derive(Clone, Copy)]
struct Answer {
    points: u64,
    cost: u32,
    longest: u32,
}

impl<M: Copy> From<Selection<M>> for Answer {
    fn from(found: Selection<M>) -> Answer {
        Answer {
            points: found.points,
            cost: found.cost,
            longest: found.longest,
        }
    }
}

// The best points by a measure, with working places for its values.
fn best<M: Measure>(
    task: &Task,
    limit: Option<u32>,
    places: &mut [Candidate<M>],
) -> Result<Option<Answer>, Refusal> {
    Ok(select(task, limit, places)?.map(Answer::from))
}

fn find_points(task: &Task, ask: Ask) -> Result<Option<Answer>, Refusal> {
    // Each case has a type of its own, so a match picks it.
    match ask.by {
        By::Ticks => best::<Ticks>(task, ask.limit, &mut [Candidate::default(); 65]),
        By::TicksCharge => best::<TicksCharge>(task, ask.limit, &mut [Candidate::default(); 65]),
    }
}

// The numbers of chosen points, with a space between two.
#[derive(Clone, Copy)]
struct PointList<'a>(&'a [u32]);

impl fmt::Display for PointList<'_> {
    fn fmt<W: fmt::Write>(&self, f: &mut fmt::Formatter<W>) -> fmt::Result {
        if self.0.is_empty() {
            return write!(f, " none");
        }
        for p in self.0 {
            write!(f, " {p}")?;
        }
        Ok(())
    }
}

// A stretch by its blocks and its length.
#[derive(Clone, Copy)]
struct Shown(Stretch);

impl fmt::Display for Shown {
    fn fmt<W: fmt::Write>(&self, f: &mut fmt::Formatter<W>) -> fmt::Result {
        let Stretch {
            first,
            last,
            length,
        } = self.0;
        if first == last {
            write!(f, "block {first}: {length} ticks")
        } else {
            write!(f, "blocks {first} to {last}: {length} ticks")
        }
    }
}

// An answer as it is printed: cost, points and longest stretch, and then each stretch with its blocks and length.
fn print_found(rt: &HostRuntime, task: &Task, ask: Ask, found: Answer) -> anyhow::Result<()> {
    let no_memory = |_: Refusal| anyhow!("no memory is left");
    let numbers = task.chosen(rt.alloc(), found.points).map_err(no_memory)?;
    let stretches = task.stretches(rt.alloc(), found.points).map_err(no_memory)?;
    println!(rt;
        "{ask}: cost {}, points{}, longest stretch {}",
        found.cost,
        PointList(&numbers),
        found.longest
    )?;
    for stretch in &stretches {
        println!(rt; "  {}", Shown(*stretch))?;
    }
    Ok(())
}

// The answer to one question.
pub(crate) fn print_answer(rt: &HostRuntime, task: &Task, ask: Ask) -> anyhow::Result<()> {
    match find_points(task, ask).map_err(|_| anyhow!("the selection refused its working places"))? {
        Some(found) => print_found(rt, task, ask, found),
        None => {
            println!(rt; "{ask}: no choice of points fits")?;
            Ok(())
        }
    }
}
