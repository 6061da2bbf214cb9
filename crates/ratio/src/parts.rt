//! The unison, the exponents of a ratio, and a ratio without its octaves.

ghost use Rattle.std.specs.Prelude.{◌≡◌};
ghost use Rattle.ratio.specs.Limits.{limits, Within};
ghost use Rattle.ratio.specs.Parts.{unison, octaveless};

use crate::ratio::Ratio;

impl Ratio {
    /// The ratio 1/1.
    #[tactic(auto, using(crate::proofs::Same::same_ratio))]
    pub fn unison() -> Ratio
        ensures { result ≡ unison }
    {
        Ratio { exponents: [0; 6] }
    }

    /// The exponents of 2, 3, 5, 7, 11 and 13: positive in the numerator, negative in the denominator, and at most 31, 20,
    /// 13, 11, 9 and 8 either way.
    pub fn exponents(&self) -> [i8; 6]
        ensures held { result ≡ self.now.exponents }
        ensures limited { Within limits result }
    {
        self.exponents
    }

    /// This ratio with all factors 2 taken out, of the numerator and of the denominator.
    #[tactic(auto, using(crate::proofs::Same::same_ratio), unfolding(crate::specs::Parts::octaveless))]
    pub fn without_octaves(&self) -> Ratio
        ensures { result ≡ octaveless self.now }
    {
        let mut exponents = self.exponents;
        exponents[0] = 0;
        Ratio { exponents }
    }
}
