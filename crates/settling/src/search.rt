//! The search for the best scale.

ghost use Rattle.std.specs.Prelude.{◌≡◌, length};

use crate::settle::Sheet;
use crate::yardstick::Yardstick;
use costing::stack::Stack;
use draft::draft::{Draft, MOST_TONES};
use ratio::ratio::Ratio;

mod descend;

/// The allowance of trials does not reach.
#[derive(Clone, Copy)]
pub(crate) struct Spent;

/// A candidate that is laid at a tone: its ratio, and its number among the candidates of the tone.
#[derive(Clone, Copy)]
pub(crate) struct Laid {
    pub(crate) ratio: Ratio,
    pub(crate) number: u8,
}

/// The best scale so far: what it costs, and the numbers of its candidates.
#[derive(Clone, Copy)]
pub(crate) struct Best<V: Copy> {
    pub(crate) cost: V,
    pub(crate) sheet: Sheet,
}

/// How far a search has come: the candidates that are laid, the costs of the starts that they make, the best scale so far
/// and the trials.
#[derive(Drop)]
pub(crate) struct Search<'a, V: Copy> {
    // stays (no plainer): how many are laid is the depth of the search and the next tone's number; a list would count it again
    pub(crate) laid: [Laid; MOST_TONES],
    pub(crate) costs: Stack<'a, V>,
    pub(crate) best: Option<Best<V>>,
    pub(crate) trials: u64,
    ghost places: { length laid ≡ 32 },
}

/// What a search is after: the best scale of a draft by a yardstick, within an allowance of trials.
#[derive(Drop)]
pub(crate) struct Quest<'y, 'a, 'd, M, C> {
    pub(crate) yardstick: &'y Yardstick<'a, M, C>,
    pub(crate) draft: &'d Draft,
    pub(crate) allowance: u64,
}
