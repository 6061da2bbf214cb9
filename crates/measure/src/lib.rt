//! Distances between ratios: what a measure promises, and the measures of the bench.
#![tactic(auto)]

pub mod blind;
pub mod fault;
pub mod measure;
pub mod pitch;
pub mod weighted;
