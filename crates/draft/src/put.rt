//! A call as a value, put to a draft.

ghost use Rattle.draft.specs.Held.{ByBook};

use crate::call::Call;
use crate::draft::Draft;
use crate::fault::DraftFault;

impl Draft {
    /// Puts one call to the draft: ok, or why it is refused.
    pub fn put(&mut self, call: Call) -> Result<(), DraftFault>
        ensures by_book { ByBook self.old self.new call result }
    {
        match call {
            Call::Tone { pitch } => self.tone(pitch),
            Call::Try {
                tone,
                numerator,
                denominator,
            } => self.try_ratio(tone, numerator, denominator),
            Call::Strike { tone, candidate } => self.strike(tone, candidate),
            Call::Bound { tone, other, bound } => self.bound(tone, other, bound),
            Call::Level { bound } => self.level(bound),
        }
    }
}
