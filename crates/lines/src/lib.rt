//! The lines of an input, and numbers that are written with decimals.
#![tactic(auto)]

pub mod fixed;
pub mod line;
pub mod split;
