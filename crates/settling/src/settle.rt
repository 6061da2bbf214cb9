//! What a settling is given and what it gives: the sheet, its limits, a settled scale.

use draft::draft::MOST_TONES;

/// The places for the candidate numbers of a scale, one for each of the most tones that a draft may have.
// stays (rule): a public type; how many places count is the draft's number of tones
pub type Sheet = [u8; MOST_TONES];

/// The largest allowance of trials.
pub const LARGEST_ALLOWANCE: u64 = 1_000_000_000;

/// How many places the stack must have: one more than the most tones.
pub const STACK_PLACES: usize = MOST_TONES + 1;

/// A settled scale: what it costs, and how many trials it took.
#[derive(Clone, Copy, Debug, PartialEq, Eq)]
pub struct Settled<V: Copy> {
    pub cost: V,
    pub trials: u64,
}
