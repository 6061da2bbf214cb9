//! The faults of a line.

ghost use Rattle.std.specs.Prelude.{◌≡◌};
ghost use Rattle.interval.specs.Faults.{line_refusal};
ghost use Rattle.interval.specs.declared.fault.LineFault.TheVariants.{Entry};

use ratio::fault::RatioFault;
use refusal::{Layer, Refusal};

/// Why a line names no ratio.
#[derive(Clone, Copy, Debug, PartialEq, Eq)]
pub enum LineFault {
    /// The line has more than 80 bytes.
    TooLong,
    /// The line is no ratio word.
    NoRatioWord,
    /// The two numbers of the word name no ratio.
    Entry(RatioFault),
}

impl From<RatioFault> for LineFault {
    ghost from_gives = { λ fault r. r ≡ Entry fault };

    fn from(fault: RatioFault) -> LineFault {
        LineFault::Entry(fault)
    }
}

impl LineFault {
    /// The fault as it is told: its layer, number and column.
    pub fn refusal(self) -> Refusal
        ensures { result ≡ line_refusal self }
    {
        // stays (no plainer): `command` tells two such faults by the same numbers, but lies above, and each layer has its own faults
        match self {
            LineFault::TooLong => Refusal {
                layer: Layer::Text,
                number: 2,
                column: 81,
            },
            LineFault::NoRatioWord => Refusal {
                layer: Layer::Text,
                number: 5,
                column: 1,
            },
            LineFault::Entry(fault) => fault.refusal(1),
        }
    }
}
