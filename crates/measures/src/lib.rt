// Measures: what a choice of points weighs in a task.
#![tactic(auto)]

pub mod by_charge;
pub mod by_ticks;
pub mod measure;
pub mod measured;
pub mod values;
