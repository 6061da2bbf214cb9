//! The calls by which a draft is told what to hold.

/// One call to a draft with its arguments, any numbers.
#[derive(Clone, Copy, Debug)]
pub enum Call {
    /// A new tone at this pitch, in thousandths of a cent.
    Tone {
        pitch: i32,
    },
    /// One candidate more for a tone: the ratio `numerator / denominator`.
    Try {
        tone: usize,
        numerator: u64,
        denominator: u64,
    },
    /// A candidate of a tone is taken out.
    Strike {
        tone: usize,
        candidate: usize,
    },
    /// The bound of one pair of tones.
    Bound {
        tone: usize,
        other: usize,
        bound: u64,
    },
    /// One bound for every pair of tones, those still to come too.
    Level {
        bound: u64,
    },
}
