// The commands of listings and sheets: their table, the decoder and the reader.
#![tactic(auto)]

pub mod reader;
pub mod table;
