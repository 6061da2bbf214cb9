//! The draft: what a user enters of a scale that is to be settled.
#![tactic(auto)]

pub mod call;
pub mod draft;
pub mod fault;
pub mod put;
pub mod tone;
