//! The fault of making a measure by weights.

ghost use Rattle.std.specs.Prelude.{◌≡◌};
ghost use Rattle.measure.specs.Faults.{weight_refusal};

use refusal::{Layer, Refusal};

/// Why six numbers are no weights of the primes.
#[derive(Clone, Copy, Debug, PartialEq, Eq)]
pub enum WeightFault {
    /// A weight is 0 or over 1,000,000.
    OutOfLimits,
}

impl WeightFault {
    /// The fault as it is told.
    pub fn refusal(self) -> Refusal
        ensures { result ≡ weight_refusal self }
    {
        let WeightFault::OutOfLimits = self;
        Refusal {
            layer: Layer::Draft,
            number: 9,
            column: 0,
        }
    }
}
