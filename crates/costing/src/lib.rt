//! What a whole scale costs: what a costing promises, the costings of the bench, and a stack for the costs of a search.
#![tactic(auto)]

pub mod costing;
pub mod joining;
pub mod stack;
pub mod total;
pub mod worst;
pub mod worst_then_total;
