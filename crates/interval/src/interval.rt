//! What a ratio is worth.

ghost use Rattle.std.specs.Prelude.{◌≡◌, Some};
ghost use Rattle.interval.specs.Texts.{hundredths, Nearest, interval_text};

use lines::fixed::{Hundredths, Thousandths};
use measure::measure::Measure;
use measure::weighted::WeightedPrimes;
use ratio::ratio::Ratio;
use std::fmt;

/// A ratio as the interval above 1/1. It is written as the ratio, its pitch in cents with three decimals, Barlow's
/// disharmonicity with two, and Euler's: `45/32 590.224 16.73 13`.
#[derive(Clone, Copy, Debug)]
pub struct Interval(pub Ratio);

impl fmt::Display for Interval {
    ghost output = { λ interval. Some (interval_text interval.0) };

    fn fmt<W: fmt::Write>(&self, f: &mut fmt::Formatter<W>) -> fmt::Result {
        let ratio = self.0;
        let cents = Thousandths(ratio.pitch());
        let barlow = Hundredths(rounded(WeightedPrimes::barlow().disharmonicity(&ratio)));
        let euler = WeightedPrimes::euler().disharmonicity(&ratio);
        write!(f, "{ratio} {cents} {barlow} {euler}")
    }
}

/// Units of 1/30,030, as Barlow's weights count, in hundredths of a whole; halves are rounded up.
pub fn rounded(units: u32) -> u32
    ensures value { result ≡ hundredths units }
    ensures nearest { Nearest units result }
{
    // stays (no plainer): `as` of a number that is proved to fit; `try_from` would add a case that never is
    ((100 * u64::from(units) + 15_015) / 30_030) as u32
}
