// The best points of one task within a limit on the length of its stretches.
#![tactic(auto)]

pub mod answer;
pub mod candidate;
mod lengths;
mod limited;
pub mod selecting;
mod starts;
