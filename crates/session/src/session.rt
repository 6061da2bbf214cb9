//! A session, which is told lines and answers them.

use draft::draft::Draft;
use settling::settle::{STACK_PLACES, Sheet};

pub mod hearing;

/// How many bytes the buffer for an answer must have; the longest answer fits.
pub const ANSWER_ROOM: usize = 1280;

/// A draft that lines of text are entered into, and what is needed to settle it.
#[derive(Clone, Copy)]
pub struct Session {
    pub(crate) draft: Draft,
    pub(crate) sheet: Sheet,
    pub(crate) stack: [u64; STACK_PLACES],
}
