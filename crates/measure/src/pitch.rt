//! The measure by pitch.

ghost use Rattle.measure.specs.Apart.{pitch_gap};
ghost use Rattle.ratio.specs.Pitches.{ratio_pitch};
ghost use Rattle.measure.specs.Laws.Apart.{apart_zero, apart_both, apart_triangle, apart_bounded};
ghost use Rattle.std.proofs.Common.{arith};
ghost use Rattle.ratio.proofs.Pitches.{pitch_within};

use crate::measure::Measure;
use ratio::ratio::Ratio;

/// The distance between two ratios is how far apart their pitches are, in thousandths of a cent.
#[derive(Clone, Copy, Debug, PartialEq, Eq)]
pub struct PitchGap;

impl Measure for PitchGap {
    ghost dist = { λ _ a b. pitch_gap a b };

    ghost zero = { λ m a. apart_zero (ratio_pitch a) };

    ghost both = { λ m a b. apart_both (ratio_pitch a) (ratio_pitch b) };

    ghost triangle = { λ m a b c. apart_triangle (ratio_pitch a) (ratio_pitch b) (ratio_pitch c) };

    ghost bounded = { λ m a b. omega (arith, apart_bounded (ratio_pitch a) (ratio_pitch b) 221404354 221404354 (pitch_within a) (pitch_within b)) };

    fn distance(&self, a: &Ratio, b: &Ratio) -> u32 {
        a.pitch().abs_diff(b.pitch())
    }
}
