// Tolerance rules: how long the tasks down to a place can be kept waiting. Places count from 1, the highest priority first.
#![tactic(auto)]

pub mod answer;
pub mod deadline;
pub mod exact;
pub mod figures;
pub mod layers;
mod multiple;
pub mod question;
pub mod rule;
mod slack;
