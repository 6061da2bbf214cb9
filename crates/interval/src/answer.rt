//! The answer to a line.

ghost use Rattle.interval.specs.Answers.{answer_text, Answered};
ghost use Rattle.std.specs.Prelude.{Some};

use crate::fault::LineFault;
use crate::interval::Interval;
use crate::name::named;
use refusal::Refusal;
use std::fmt;

/// The answer to a line, written without its byte 10: what the ratio that it names is worth, or the refusal.
#[derive(Clone, Copy)]
pub struct Answer(pub Result<Interval, Refusal>);

impl Answer {
    /// The answer to this line; every line has one.
    pub fn to(line: &[u8]) -> Answer
        ensures answered { Answered line.now (answer_text result) }
    {
        Answer(named(line).map(Interval).map_err(LineFault::refusal))
    }
}

impl fmt::Display for Answer {
    ghost output = { λ answer. Some (answer_text answer) };

    fn fmt<W: fmt::Write>(&self, f: &mut fmt::Formatter<W>) -> fmt::Result {
        match self.0 {
            Ok(interval) => write!(f, "{interval}"),
            Err(refusal) => write!(f, "{refusal}"),
        }
    }
}
