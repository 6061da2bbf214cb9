//! What it is to settle a scale, and the search that settles it.
#![tactic(auto)]

pub mod fault;
mod search;
pub mod settle;
pub mod step;
pub mod yardstick;
