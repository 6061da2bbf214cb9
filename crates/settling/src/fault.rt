//! The faults of a settling.

ghost use Rattle.std.specs.Prelude.{◌≡◌};
ghost use Rattle.settling.specs.Faults.{search_refusal};
ghost use Rattle.settling.specs.declared.fault.SearchFault.TheVariants.{Spent as SpentFault};

use crate::search::Spent;
use refusal::{Layer, Refusal};

/// Why a settling gives no scale.
#[derive(Clone, Copy, Debug, PartialEq, Eq)]
pub enum SearchFault {
    /// The allowance is over 1,000,000,000.
    OutOfLimits,
    /// The stack has fewer than 33 places.
    ShortStack,
    /// The draft has no tone.
    NoTone,
    /// The trials exceed the allowance.
    Spent,
    /// Every choice breaks some bound, which took this many trials to find.
    NoScale { trials: u64 },
}

impl From<Spent> for SearchFault {
    ghost from_gives = { λ _ r. r ≡ SpentFault };

    fn from(_spent: Spent) -> SearchFault {
        SearchFault::Spent
    }
}

impl SearchFault {
    /// The fault as it is told at this column.
    pub fn refusal(self, column: usize) -> Refusal
        ensures { result ≡ search_refusal self column }
    {
        let (layer, number) = match self {
            SearchFault::OutOfLimits => (Layer::Draft, 9),
            SearchFault::ShortStack => (Layer::Search, 11),
            SearchFault::NoTone => (Layer::Search, 24),
            SearchFault::Spent => (Layer::Search, 25),
            SearchFault::NoScale { trials: _ } => (Layer::Search, 26),
        };
        Refusal {
            layer,
            number,
            column,
        }
    }
}
