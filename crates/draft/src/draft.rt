//! The draft.

ghost use Rattle.std.specs.Prelude.{◌≡◌, length};

use crate::tone::Tone;
use places::Places;

mod entering;
mod reading;

/// The most tones that a draft may have.
pub const MOST_TONES: usize = 32;

/// The largest bound, which every pair of a new draft has.
pub const LARGEST_BOUND: u64 = 1_073_741_824;

/// The pitch farthest from 0 that a tone may have, in thousandths of a cent.
pub const FARTHEST_PITCH: i32 = 12_000_000;

/// How many pairs the most tones make.
const PAIRS: usize = MOST_TONES * (MOST_TONES - 1) / 2;

/// What a user has entered: tones with their candidates, numbered from 0 in the order of entry, and a bound for each pair
/// of the 32 places.
///
/// Fixed tables, so that no call can fail for want of memory. The bound of the pair i < j stands at place j(j - 1)/2 + i.
// stays (no plainer): no Model, as a book bounds any two numbers and a draft 32 places; clauses range over the books it holds
#[derive(Clone, Copy)]
pub struct Draft {
    pub(crate) tones: Places<Tone, MOST_TONES>,
    pub(crate) bounds: [u32; PAIRS],
    ghost pairs: { length bounds ≡ 496 },
}
