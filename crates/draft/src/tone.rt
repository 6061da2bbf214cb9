//! A tone of a draft.

use places::Places;
use ratio::ratio::Ratio;

mod listing;

/// The most candidates that a tone may have.
pub const MOST_CANDIDATES: usize = 8;

/// A tone of a draft: its pitch in thousandths of a cent, and its candidates, numbered from 0 in the order of entry.
#[derive(Clone, Copy)]
pub struct Tone {
    pub(crate) pitch: i32,
    pub(crate) candidates: Places<Ratio, MOST_CANDIDATES>,
}
