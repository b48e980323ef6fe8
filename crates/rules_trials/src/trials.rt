use crate::piles::Pile;
use crate::scan;
use random::Random;
use rules::answer::Answer;
use rules::deadline::Deadline;
use rules::exact::Exact;
use rules::question::Question;
use rules::rule::Rule;
use std::{array, fmt};
use tasks::refusals::Refusal;
use tasks::timings::Timing;

const LOWEST: i64 = -1_000_000_000_000_000;

// What was tried, and how often the rules told what the plain scan tells.
#[derive(Clone, Copy, PartialEq, Eq, Default, Debug)]
pub struct Tally {
    tables: u32,
    places: u32,
    exact: u32,
    deadline: u32,
    layers: u32,
    below_zero: u32,
    before_deadline: u32,
    sum: u64,
}

impl fmt::Display for Tally {
    fn fmt<W: fmt::Write>(&self, f: &mut fmt::Formatter<W>) -> fmt::Result {
        writeln!(f, "{} random tables, {} places", self.tables, self.places)?;
        writeln!(
            f,
            "as the scan: exact {}, deadline {}, layers {}",
            self.exact, self.deadline, self.layers
        )?;
        writeln!(
            f,
            "below zero {}, before the deadline {}",
            self.below_zero, self.before_deadline
        )?;
        write!(f, "sum {}", self.sum)
    }
}

impl Tally {
    // One place of one table.
    fn note(&mut self, question: Question<'_>, pile: Pile) -> Result<(), Refusal> {
        let by = question.deadline();
        let tasks = question.tasks_down();
        let plain = scan::greatest(tasks, by);
        let end = Answer {
            tolerance: scan::slack(tasks, by),
            moment: by,
        };
        let told = Exact.ask(question);
        self.places = self.places.wrapping_add(1);
        self.exact = self.exact.wrapping_add(u32::from(told == plain));
        self.deadline = self
            .deadline
            .wrapping_add(u32::from(Deadline.ask(question) == end));
        let same = layers_agree(question, pile, plain)?;
        self.layers = self.layers.wrapping_add(u32::from(same));
        self.below_zero = self.below_zero.wrapping_add(u32::from(told.tolerance < 0));
        self.before_deadline = self
            .before_deadline
            .wrapping_add(u32::from(told.moment < by));
        let moved = told.tolerance.wrapping_add(1_000_000).max(0).unsigned_abs();
        self.sum = self
            .sum
            .wrapping_mul(31)
            .wrapping_add(moved)
            .wrapping_add(u64::from(told.moment));
        Ok(())
    }
}

// Whether both orders of a reserve and a cap tell what they should of the plain answer.
fn layers_agree(question: Question<'_>, pile: Pile, plain: Answer) -> Result<bool, Refusal> {
    let less = i64::from(pile.reserve);
    let most = i64::from(pile.cap);
    let lowered = Answer {
        tolerance: plain.tolerance.saturating_sub(less).max(LOWEST).min(most),
        ..plain
    };
    let cut = Answer {
        tolerance: plain.tolerance.min(most).saturating_sub(less).max(LOWEST),
        ..plain
    };
    Ok(pile.cap_on_reserve(question)? == lowered && pile.reserve_on_cap(question)? == cut)
}

// A task with a period of 10 to 59 ticks. Half of the costs are small, so that some tables fit and some do not.
fn random_task(random: &mut Random) -> Result<Timing, Refusal> {
    let period = 10 + random.below(50);
    let deadline = 1 + random.below(period);
    let most = if random.below(2) == 0 { 6 } else { 30 };
    Timing::new(period, deadline, 1 + random.below(most))
}

// Some random tables of 1 to 6 tasks, each place of each.
pub fn run(tables: u32) -> Result<Tally, Refusal> {
    let mut random = Random { state: 2463 };
    let mut tally = Tally {
        tables,
        ..Tally::default()
    };
    // The tables are counted: each is drawn when its turn comes.
    for _ in 0..tables {
        try_table(&mut random, &mut tally)?;
    }
    Ok(tally)
}

// Six random tasks.
fn random_tasks(random: &mut Random) -> Result<[Timing; 6], Refusal> {
    array::try_from_fn(|_| random_task(random))
}

// Each place of a table of the first 1 to 6 of them.
fn try_table(random: &mut Random, tally: &mut Tally) -> Result<(), Refusal> {
    let drawn = random_tasks(random)?;
    // std has no `From<u32>` for `usize`.
    let tasks = &drawn[..1 + random.below(6) as usize];
    // A place is a number, and no item of the table.
    for place in 1..=tasks.len() {
        let pile = Pile {
            reserve: random.below(40),
            cap: random.below(40),
        };
        tally.note(Question { tasks, place }, pile)?;
    }
    Ok(())
}
