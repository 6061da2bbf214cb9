//! The faults of entering something into a draft.

ghost use Rattle.std.specs.Prelude.{◌≡◌};
ghost use Rattle.draft.specs.Faults.{draft_refusal};
ghost use Rattle.draft.specs.declared.fault.DraftFault.TheVariants.{Entry};

use ratio::fault::RatioFault;
use refusal::{Layer, Refusal};

/// Why a draft refuses a call.
#[derive(Clone, Copy, Debug, PartialEq, Eq)]
pub enum DraftFault {
    /// The two numbers of a candidate name no ratio.
    Entry(RatioFault),
    /// A pitch or a bound is outside its limits.
    OutOfLimits,
    /// A bound names one tone twice.
    SameTone,
    /// There is no such tone.
    NoTone,
    /// There is no such candidate.
    NoCandidate,
    /// There are 32 tones already.
    TonesFull,
    /// The tone has 8 candidates already.
    CandidatesFull,
}

impl From<RatioFault> for DraftFault {
    ghost from_gives = { λ fault r. r ≡ Entry fault };

    fn from(fault: RatioFault) -> DraftFault {
        DraftFault::Entry(fault)
    }
}

impl DraftFault {
    /// The fault as it is told of a word at this column.
    pub fn refusal(self, column: usize) -> Refusal
        ensures { result ≡ draft_refusal self column }
    {
        let number = match self {
            DraftFault::Entry(fault) => return fault.refusal(column),
            DraftFault::OutOfLimits => 9,
            DraftFault::SameTone => 10,
            DraftFault::NoTone => 20,
            DraftFault::NoCandidate => 21,
            DraftFault::TonesFull => 22,
            DraftFault::CandidatesFull => 23,
        };
        Refusal {
            layer: Layer::Draft,
            number,
            column,
        }
    }
}
