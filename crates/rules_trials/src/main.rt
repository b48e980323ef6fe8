// Tries the rules: the worked figures, random tables against a plain scan over every moment, and the speed of the exact rule.
#![tactic(auto)]

mod figures;
mod piles;
mod scan;
mod speed;
mod trials;

use crate::figures::Figures;
use crate::trials::Tally;
use std::io;
use tasks::refusals::Refusal;

fn tried() -> Result<(Figures, Tally), Refusal> {
    Ok((figures::told()?, trials::run(4000)?))
}

fn main(rt: HostRuntime) -> io::Result<()> {
    match tried() {
        Ok((figures, tally)) => {
            println!(rt; "{figures}")?;
            println!(rt; "{tally}")?;
        }
        Err(e) => println!(rt; "refused: {}", e.number())?,
    }
    speed::print(&rt)
}
