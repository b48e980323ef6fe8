// Tasks, their points and blocks, and what a choice of points costs.
// Blocks and points count from 1 in every public call; inside, index i is block i + 1 or point i + 1.
#![tactic(auto)]

pub mod blocks;
pub mod choices;
pub mod clock;
pub mod making;
pub mod model;
pub mod points;
pub mod refusals;
pub mod timings;
