//! The pitch of a ratio.

ghost use Rattle.std.specs.Prelude.{◌≡◌};
ghost use Rattle.ratio.specs.Pitches.{ratio_pitch};

use crate::ratio::Ratio;

/// The pitch of each prime, in thousandths of a cent.
const PRIME_PITCHES: [i32; 6] = [
    1_200_000, 1_901_955, 2_786_314, 3_368_826, 4_151_318, 4_440_528,
];

impl Ratio {
    /// The pitch of this ratio above 1/1 in thousandths of a cent, negative below it: the sum of each prime's
    /// pitch times its exponent.
    pub fn pitch(&self) -> i32
        ensures { result ≡ ratio_pitch self.now }
    {
        let mut total = 0;
        for (pitch, exponent) in PRIME_PITCHES.iter().zip(&self.exponents) {
            total += pitch * i32::from(*exponent);
        }
        total
    }
}

#[cfg(test)]
mod tests {
    use super::*;

    #[test]
    fn pitches(rt: HostRuntime) {
        let fifth = Ratio {
            exponents: [-1, 1, 0, 0, 0, 0],
        };
        assert_eq!(rt; fifth.pitch(), 701_955);
        assert_eq!(rt; fifth.without_octaves().pitch(), 1_901_955);
        let third_down = Ratio {
            exponents: [2, 0, -1, 0, 0, 0],
        };
        assert_eq!(rt; third_down.pitch(), -386_314);
    }
}
