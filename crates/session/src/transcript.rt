//! A whole input, heard byte by byte, and the answer to each of its lines.

use crate::session::Session;
use lines::line::Line;

pub mod hearing;

/// A session that follows an input: the session, and the line that is being read, of which 81 bytes are kept.
#[derive(Clone, Copy)]
pub struct Transcript {
    pub(crate) session: Session,
    pub(crate) line: Line,
}
