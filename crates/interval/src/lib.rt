//! What a ratio is worth, line by line: a ratio word in, its pitch and disharmonicities out.
#![tactic(auto)]

pub mod answer;
pub mod fault;
pub mod interval;
pub mod name;
pub mod table;
