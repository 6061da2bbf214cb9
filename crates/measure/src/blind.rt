//! The measure that is blind to octaves.

ghost use Rattle.measure.specs.Apart.{octave_blind};
ghost use Rattle.std.proofs.Common.{rules};

use crate::measure::Measure;
use ratio::ratio::Ratio;

/// A measure over another: it takes all factors 2 out of both ratios and gives the answer of the measure below.
#[derive(Clone, Copy, Debug, PartialEq, Eq)]
pub struct OctaveBlind<M>(pub M);

impl<M: Measure> Measure for OctaveBlind<M> {
    ghost dist = { λ m a b. octave_blind (M.Measure.dist m.0) a b };

    ghost zero = { Prim.search rules };

    ghost both = { Prim.search rules };

    ghost triangle = { Prim.search rules };

    ghost bounded = { Prim.search rules };

    fn distance(&self, a: &Ratio, b: &Ratio) -> u32 {
        self.0.distance(&a.without_octaves(), &b.without_octaves())
    }
}

#[cfg(test)]
mod tests {
    use super::*;
    use crate::pitch::PitchGap;
    use crate::weighted::WeightedPrimes;

    #[test]
    fn blind_over_blind(rt: HostRuntime) {
        let unison = Ratio::unison();
        let weighted = OctaveBlind(OctaveBlind(WeightedPrimes::barlow()));
        assert_eq!(rt; weighted.disharmonicity(&unison), 0);
        let pitched = OctaveBlind(OctaveBlind(PitchGap));
        assert_eq!(rt; pitched.distance(&unison, &unison), 0);
    }
}
