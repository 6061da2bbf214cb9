//! What is entered into a draft.

ghost use Rattle.std.specs.Prelude.{◌≡◌, ◌<◌, ◌≤◌, ◌≢◌, Some, None, IfOk, MatchResult};
ghost use Rattle.std.specs.Fn.{FnOnceReturnsAtMut};
ghost use Rattle.draft.specs.Book.{Book, new_book};
ghost use Rattle.draft.specs.Changes.{ToneChanged, pair_fault};
ghost use Rattle.draft.specs.Held.{Holds, ByBook, pair_place};
ghost use Rattle.draft.specs.declared.fault.DraftFault.TheVariants.{OutOfLimits};
ghost use Rattle.draft.specs.declared.call.Call.TheVariants.{Tone as ToneCall, Try, Strike, Bound, Level};

use super::{Draft, FARTHEST_PITCH, LARGEST_BOUND, PAIRS};
use crate::fault::DraftFault;
use crate::tone::Tone;
use places::Places;
use ratio::ratio::Ratio;

impl Draft {
    /// A draft without tones, in which every bound is the largest.
    pub fn new() -> Draft
        ensures holds { Holds result new_book }
    {
        Draft {
            tones: Places::empty(Tone::new(0)),
            // stays (no plainer): `as` of a constant that fits; `try_from` would add a case that never is
            bounds: [LARGEST_BOUND as u32; PAIRS],
        }
    }

    /// A new tone without candidates, after the others, at this pitch in thousandths of a cent.
    ///
    /// Refuses a pitch outside -12,000,000 to 12,000,000, then a 33rd tone.
    pub fn tone(&mut self, pitch: i32) -> Result<(), DraftFault>
        ensures by_book { ByBook self.old self.new (ToneCall pitch) result }
    {
        if pitch < -FARTHEST_PITCH || pitch > FARTHEST_PITCH {
            return Err(DraftFault::OutOfLimits);
        }
        self.tones
            .push(Tone::new(pitch))
            .map_err(|_| DraftFault::TonesFull)
    }

    /// One candidate more for a tone, after its others: the ratio `numerator / denominator`.
    ///
    /// Refuses what names no ratio, then a tone that is not there, then a ninth candidate.
    pub fn try_ratio(
        &mut self,
        tone: usize,
        numerator: u64,
        denominator: u64,
    ) -> Result<(), DraftFault>
        ensures by_book { ByBook self.old self.new (Try tone numerator denominator) result }
    {
        let ratio = Ratio::new(numerator, denominator)?;
        self.change_tone(tone, |held| held.add(ratio))
    }

    /// A candidate of a tone is taken out, and those after it move down by one.
    ///
    /// Refuses a tone that is not there, then a candidate that is not there.
    pub fn strike(&mut self, tone: usize, candidate: usize) -> Result<(), DraftFault>
        ensures by_book { ByBook self.old self.new (Strike tone candidate) result }
    {
        self.change_tone(tone, |held| held.strike(candidate))
    }

    /// Changes a tone as told, or leaves it as it is if that is refused.
    ///
    /// Refuses a tone that is not there, then what the change refuses.
    fn change_tone<F: FnOnce(&mut Tone) -> Result<(), DraftFault>>(
        &mut self,
        tone: usize,
        change: F,
    ) -> Result<(), DraftFault>
        requires { F.IsAlwaysCallable change }
        ensures changed { ToneChanged (FnOnceReturnsAtMut F.FnOnce change) self.old self.new tone result }
    {
        let mut changed = self.tones.get(tone).ok_or(DraftFault::NoTone)?;
        change(&mut changed)?;
        self.tones.replace(tone, changed);
        Ok(())
    }

    /// The bound of one pair of tones, good both ways.
    ///
    /// Refuses a bound over 1,073,741,824, then a tone named twice, then a tone that is not there.
    pub fn bound(&mut self, tone: usize, other: usize, bound: u64) -> Result<(), DraftFault>
        ensures by_book { ByBook self.old self.new (Bound tone other bound) result }
    {
        let bound = held_bound(bound)?;
        let place = self.place_of(tone, other)?;
        self.bounds[place] = bound;
        Ok(())
    }

    /// One bound for every pair of tones, those of tones still to come too.
    ///
    /// Refuses a bound over 1,073,741,824.
    pub fn level(&mut self, bound: u64) -> Result<(), DraftFault>
        ensures by_book { ByBook self.old self.new (Level bound) result }
    {
        let bound = held_bound(bound)?;
        self.bounds = [bound; PAIRS];
        Ok(())
    }

    /// Where the bound of a pair of tones stands, whichever way round.
    ///
    /// Refuses a tone named twice, then a tone that is not there.
    #[tactic(auto, using(crate::proofs::Pairs::place_within))]
    pub(crate) fn place_of(&self, tone: usize, other: usize) -> Result<usize, DraftFault>
        ensures by_book { (b : Book) → Holds self.now b → MatchResult result (λ place. (pair_fault b tone other ≡ None) × (place ≡ pair_place tone other)) (λ fault. pair_fault b tone other ≡ Some fault) }
        ensures apart { IfOk result (λ place. (tone < 32) × (other < 32) × (tone ≢ other) × (place < 496)) }
    {
        if tone == other {
            return Err(DraftFault::SameTone);
        }
        if tone >= self.tones.len() || other >= self.tones.len() {
            return Err(DraftFault::NoTone);
        }
        let high = tone.max(other);
        let low = tone.min(other);
        Ok(high * (high - 1) / 2 + low)
    }
}

/// A bound as it is held.
///
/// Refuses a bound over 1,073,741,824.
fn held_bound(bound: u64) -> Result<u32, DraftFault>
    ensures cases { MatchResult result (λ held. (held ≡ bound) × (bound ≤ 1073741824)) (λ fault. (fault ≡ OutOfLimits) × (1073741824 < bound)) }
{
    if bound > LARGEST_BOUND {
        return Err(DraftFault::OutOfLimits);
    }
    // stays (no plainer): `as` of a number that is proved to fit; `try_from` would add a case that never is
    Ok(bound as u32)
}
