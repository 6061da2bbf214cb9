//! What the bench is asked step by step, and what it answers.

use crate::fault::SearchFault;
use crate::settle::{Settled, Sheet};
use draft::call::Call;
use draft::fault::DraftFault;

/// One step of a run: an entry into the draft, or a settling.
#[derive(Clone, Copy)]
pub enum Step {
    /// A call by which the draft is told what to hold.
    Enter { call: Call },
    /// The best scale is asked for, under this allowance of trials.
    Settle { allowance: u64 },
}

/// The answer to one step.
#[derive(Clone, Copy)]
pub enum Answer<V: Copy> {
    /// To an entry: ok, or why it is refused.
    Entered {
        told: Result<(), DraftFault>,
    },
    /// To a settling: the scale, or why there is none.
    Settled {
        told: Result<Settled<V>, SearchFault>,
    },
}

/// What a run records of one step: the answer, and the sheet after it.
#[derive(Clone, Copy)]
pub struct Entry<V: Copy> {
    pub answer: Answer<V>,
    pub sheet: Sheet,
}
