// Reading listings: their runs, routines and tasks, for bytes of any sort.
#![tactic(auto)]

pub mod heads;
pub mod outline;
pub mod read;
pub mod walk;
