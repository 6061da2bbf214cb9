//! The line that is being read.

use places::Places;

mod hearing;

/// The most bytes that a line may have.
pub const LONGEST_LINE: usize = 80;

/// How many bytes of a line are kept: one more shows that it is too long.
const KEPT: usize = LONGEST_LINE + 1;

/// The start of the line that is being read, as far as it matters: its first 81 bytes.
///
/// A line of more than [`LONGEST_LINE`] bytes is refused whatever follows, so nothing beyond byte 81 is kept.
// stays (no plainer): a ghost field states a fact of the fields and keeps no bytes that are gone, so the clauses of `Line`,
// and of the tables and transcripts that read one, range over what was heard so far
#[derive(Clone, Copy)]
pub struct Line {
    bytes: Places<u8, KEPT>,
}
