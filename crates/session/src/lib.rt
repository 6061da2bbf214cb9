//! The session: lines of text in, answers out.
#![tactic(auto)]

mod blame;
pub mod fault;
mod page;
mod scale;
pub mod session;
pub mod transcript;
