//! Exact ratios: entry, lowest terms, six exponents, printing, pitch.
#![tactic(auto)]

pub mod entry;
pub mod equality;
pub mod fault;
pub mod parts;
pub mod pitch;
pub mod print;
pub mod ratio;
pub mod word;
