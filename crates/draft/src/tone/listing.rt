//! The candidates of a tone.

ghost use Rattle.std.specs.Prelude.{◌≡◌, ◌<◌, ◌≤◌, true, [], ◌∷◌, ◌++◌, length, MatchResult};
ghost use Rattle.draft.specs.Held.{listed};
ghost use Rattle.std.specs.List.{remove};
ghost use Rattle.draft.specs.declared.fault.DraftFault.TheVariants.{CandidatesFull, NoCandidate};
ghost use Rattle.draft.specs.Changes.{Candidates};

use super::Tone;
use crate::fault::DraftFault;
use places::Places;
use ratio::ratio::Ratio;

impl Tone {
    /// A tone without candidates.
    pub(crate) fn new(pitch: i32) -> Tone
        ensures pitch { result.pitch ≡ pitch }
        ensures listed { listed result ≡ [] }
    {
        Tone {
            pitch,
            candidates: Places::empty(Ratio::unison()),
        }
    }

    /// The tone's pitch, in thousandths of a cent.
    pub fn pitch(&self) -> i32
        ensures { result ≡ self.now.pitch }
    {
        self.pitch
    }

    /// The tone's candidates, in the order of their numbers.
    pub fn candidates(&self) -> &[Ratio]
        ensures { result.now ≡ listed self.now }
    {
        self.candidates.as_slice()
    }

    /// One candidate more, after the others; refused if there are 8.
    pub(crate) fn add(&mut self, ratio: Ratio) -> Result<(), DraftFault>
        ensures cases { MatchResult result (λ _. (length (listed self.old) < 8) × Candidates self.old self.new (listed self.old ++ (ratio ∷ []))) (λ fault. (fault ≡ CandidatesFull) × (8 ≤ length (listed self.old)) × (self.new ≡ self.old)) }
    {
        let added = self.candidates.push(ratio);
        added.map_err(|_| DraftFault::CandidatesFull)
    }

    /// The candidate with this number is taken out, and those after it move down by one; refused if there is none.
    pub(crate) fn strike(&mut self, number: usize) -> Result<(), DraftFault>
        ensures cases { MatchResult result (λ _. (number < length (listed self.old)) × Candidates self.old self.new (remove (listed self.old) number)) (λ fault. (fault ≡ NoCandidate) × (length (listed self.old) ≤ number) × (self.new ≡ self.old)) }
    {
        let struck = self.candidates.remove(number);
        struck.map(|_| ()).ok_or(DraftFault::NoCandidate)
    }
}
