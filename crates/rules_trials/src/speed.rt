use crate::scan;
use rules::exact::Exact;
use rules::question::Question;
use rules::rule::Rule;
use std::io;
use std::rt::Clock;
use std::time::Instant;
use tasks::refusals::Refusal;
use tasks::timings::Timing;

// How often the exact rule is asked while the plain scan is made once.
const TURNS: u32 = 50;

// Periods of 1,000 ticks and more, and a deadline of 1,000,000 at place 4.
fn table(cost: u32) -> Result<[Timing; 4], Refusal> {
    Ok([
        Timing::new(1_000, 1_000, cost)?,
        Timing::new(1_700, 1_700, 200)?,
        Timing::new(2_300, 2_300, 300)?,
        Timing::new(1_000_000, 1_000_000, 1_000)?,
    ])
}

// The sum of the exact tolerances of some tables that differ in a cost.
fn asked() -> Result<i64, Refusal> {
    (100..100 + TURNS).try_fold(0, |sum: i64, cost| {
        let tasks = table(cost)?;
        let question = Question {
            tasks: &tasks,
            place: 4,
        };
        Ok(sum.wrapping_add(Exact.ask(question).tolerance))
    })
}

// The tolerance of the first of these tables by the plain scan.
fn scanned() -> Result<i64, Refusal> {
    let tasks = table(100)?;
    Ok(scan::greatest(&tasks, 1_000_000).tolerance)
}

// How long the exact rule took for all its turns and the plain scan for its one, in nanoseconds, and what they told.
#[derive(Clone, Copy, PartialEq, Eq, Debug)]
struct Round {
    exact: u128,
    plain: u128,
    sum: i64,
    tolerance: i64,
}

// Each table is in range, so none is refused and no 0 is told in its place.
fn measured(rt: &impl Clock) -> io::Result<Round> {
    let start = Instant::now(rt)?;
    let sum = asked().unwrap_or(0);
    let exact = start.elapsed(rt)?.as_nanos();
    let start = Instant::now(rt)?;
    let tolerance = scanned().unwrap_or(0);
    let plain = start.elapsed(rt)?.as_nanos();
    Ok(Round {
        exact,
        plain,
        sum,
        tolerance,
    })
}

// Whether the exact rule answers 50 times in the time of one plain scan, by the shortest time that each has in some rounds. The ratio goes to
// the error output, as it differs from run to run.
pub fn print(rt: &(impl Print + Eprint + Clock)) -> io::Result<()> {
    let mut least = measured(rt)?;
    // The rounds are counted: there is no item to go over.
    for _ in 0..4 {
        let round = measured(rt)?;
        least.exact = least.exact.min(round.exact);
        least.plain = least.plain.min(round.plain);
    }
    let ratio = least.plain.saturating_mul(u128::from(TURNS)) / least.exact.max(1);
    eprintln!(rt; "the exact rule is {ratio} times as fast as the scan")?;
    let answer = if least.exact <= least.plain {
        "yes"
    } else {
        "no"
    };
    println!(rt;
        "scan {}, sum of {TURNS} exact {}",
        least.tolerance, least.sum
    )?;
    println!(rt; "at least 50 times faster: {answer}")
}
