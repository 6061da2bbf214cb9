//! The table of intervals: an input heard byte by byte, and an answer to each of its lines.

use lines::line::Line;

mod hearing;

/// The table that is being written: the line that is being read, of which 81 bytes are kept.
#[derive(Clone, Copy)]
pub struct Table {
    pub(crate) line: Line,
}
