//! What a line of a session says: its words, their forms, and the step that they name.
#![tactic(auto)]

pub mod command;
pub mod fault;
pub mod form;
mod word;
