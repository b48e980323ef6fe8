// Trials of the selection: worked figures as one fact over the definitions, and random small tasks against all of their choices.
#![tactic(auto)]

ghost use Rattle.heap.specs.Orders.{before_by};
ghost use Rattle.trials.specs.Figures.{Figures, FiguresBy};

mod brute;
mod drawn;

use anyhow::anyhow;
use brute::{Question, Tally};
use measures::values::{Ticks, TicksCharge};
use random::Random;
use selection::candidate::Candidate;
use std::alloc::Global;
use tasks::refusals::Refusal;

// Worked figures of one task: they hold of the definitions, by the named orders and by those that the selection goes by.
fn figures()
    ensures named { Figures }
    ensures derived { FiguresBy (before_by ⟦<Ticks as Ord>⟧.cmp) (before_by ⟦<TicksCharge as Ord>⟧.cmp) }
{}

// Both measures over random tasks, each asked at some limits.
fn compare_all(heap: Global) -> Result<(Tally, Tally), Refusal> {
    let mut random = Random { state: 20261117 };
    let mut ticks = Tally::default();
    let mut charge = Tally::default();
    let mut ticks_places = [Candidate::<Ticks>::default(); 65];
    let mut charge_places = [Candidate::<TicksCharge>::default(); 65];
    // Tasks and limits are counted: each is drawn when its turn comes.
    for _ in 0..3000u32 {
        let task = drawn::task(&mut random, heap)?;
        for _ in 0..4u32 {
            let question = Question {
                task: &task,
                limit: drawn::limit(&mut random),
            };
            ticks.compare(question, &mut ticks_places);
            charge.compare(question, &mut charge_places);
        }
    }
    Ok((ticks, charge))
}

fn main(rt: HostRuntime) -> anyhow::Result<()> {
    figures();
    let (ticks, charge) = compare_all(rt.alloc()).map_err(|_| anyhow!("no task could be made"))?;
    println!(rt; "ticks alone: {ticks}")?;
    println!(rt; "ticks, then charge: {charge}")?;
    Ok(())
}
