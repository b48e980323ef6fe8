// The faults of listings: reading inside costing inside loading, each with its number, place and code.
#![tactic(auto)]

pub mod fault;
