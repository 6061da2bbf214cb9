//! The faults of entering a ratio.

ghost use Rattle.std.specs.Prelude.{◌≡◌};
ghost use Rattle.ratio.specs.Faults.{ratio_refusal};

use refusal::{Layer, Refusal};

/// Why two numbers name no ratio of the bench.
#[derive(Clone, Copy, Debug, PartialEq, Eq)]
pub enum RatioFault {
    /// The numerator or the denominator is 0.
    ZeroPart,
    /// The numerator or the denominator, as given, is over 4,294,967,295.
    PartTooLarge,
    /// After common factors are cancelled, a prime above 13 is left.
    PrimeLeft,
}

impl RatioFault {
    /// The fault as it is told of a word at this column.
    pub fn refusal(self, column: usize) -> Refusal
        ensures { result ≡ ratio_refusal self column }
    {
        let number = match self {
            RatioFault::ZeroPart => 6,
            RatioFault::PartTooLarge => 7,
            RatioFault::PrimeLeft => 8,
        };
        Refusal {
            layer: Layer::Ratio,
            number,
            column,
        }
    }
}
