//! What a draft holds.

ghost use Rattle.std.specs.Prelude.{◌≡◌, length, map};
ghost use Rattle.draft.specs.Book.{Book};
ghost use Rattle.draft.specs.Held.{Holds, noted};
ghost use Rattle.draft.specs.Reading.{pitch_in, candidates_in, bound_in};
ghost use Rattle.std.specs.Option.{option_map};

use super::Draft;
use crate::tone::Tone;
use ratio::ratio::Ratio;

impl Draft {
    /// How many tones are entered.
    pub fn tones(&self) -> usize
        ensures by_book { (b : Book) → Holds self.now b → result ≡ length b.tones }
        ensures some_book { (b : Book) × Holds self.now b }
    {
        self.tones.len()
    }

    /// The tones, in the order of entry.
    pub fn listed(&self) -> &[Tone]
        ensures by_book { (b : Book) → Holds self.now b → map noted result.now ≡ b.tones }
    {
        self.tones.as_slice()
    }

    /// The pitch of a tone, in thousandths of a cent, or `None` if there is no such tone.
    pub fn pitch(&self, tone: usize) -> Option<i32>
        ensures by_book { (b : Book) → Holds self.now b → result ≡ pitch_in b tone }
    {
        let held = self.tones.get(tone)?;
        Some(held.pitch())
    }

    /// The candidates of a tone, in the order of their numbers, or `None` if there is no such tone.
    pub fn candidates(&self, tone: usize) -> Option<&[Ratio]>
        ensures by_book { (b : Book) → Holds self.now b → option_map (λ x. x.now) result ≡ candidates_in b tone }
    {
        let held = self.tones.as_slice().get(tone)?;
        Some(held.candidates())
    }

    /// The bound of a pair of tones, whichever way round, or `None` if they are one tone or one of them is not there.
    #[tactic(auto, using(crate::proofs::Reading::bound_at_pair))]
    pub fn bound_of(&self, tone: usize, other: usize) -> Option<u32>
        ensures by_book { (b : Book) → Holds self.now b → result ≡ bound_in b tone other }
    {
        let Ok(place) = self.place_of(tone, other) else {
            return None;
        };
        Some(self.bounds[place])
    }
}
