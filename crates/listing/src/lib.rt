// Listings of routines and tasks: worst costs and loading.
#![tactic(auto)]

pub mod blocks;
pub mod calls;
pub mod codes;
pub mod cost;
pub mod cycles;
pub mod load;
pub mod parts;

pub use commands::{reader, table};
pub use reading::{heads, outline, read, walk};
