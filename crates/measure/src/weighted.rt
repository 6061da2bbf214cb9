//! The measure by weights of the primes.

ghost use Rattle.std.specs.Prelude.{◌≡◌, ℕ, length, is_ok, IfOk, Decides};
ghost use Rattle.ratio.specs.Products.{primes, numerator, denominator};
ghost use Rattle.measure.specs.Weights.{Allowed, ByBarlow, barlow_weights, euler_weights, weighted_distance};
ghost use Rattle.measure.specs.Harmonic.{HarmonicDistance, SumOfParts, Additive};
ghost use Rattle.ratio.specs.Parts.{unison};
ghost use Rattle.std.specs.List.{AllZip};
ghost use Rattle.measure.specs.Laws.Bounded.{weighted_bounded};
ghost use Rattle.measure.specs.Laws.Sums.{weighted_zero, weighted_both, weighted_triangle};
ghost use Rattle.std.proofs.Common.{arith, rules};

use crate::fault::WeightFault;
use crate::measure::Measure;
use ratio::ratio::Ratio;

/// The largest weight.
const HEAVIEST: u32 = 1_000_000;

/// A weight for each of the six primes, from 1 to 1,000,000.
///
/// The distance between two ratios is the sum of each weight times how far apart the exponents of its prime are.
#[derive(Clone, Copy, Debug)]
pub struct WeightedPrimes {
    pub(crate) weights: [u32; 6],
    ghost six: { length weights ≡ 6 },
    ghost allowed: { Allowed weights },
}

impl WeightedPrimes {
    /// The measure by these weights of 2, 3, 5, 7, 11 and 13.
    ///
    /// It refuses weights of which one is 0 or over 1,000,000.
    pub fn new(weights: [u32; 6]) -> Result<WeightedPrimes, WeightFault>
        ensures held { IfOk result (λ m. m.weights ≡ weights) }
        ensures accepted { Decides (is_ok result) (Allowed weights) }
    {
        if weights.iter().all(|weight| (1..=HEAVIEST).contains(weight)) {
            Ok(WeightedPrimes { weights })
        } else {
            Err(WeightFault::OutOfLimits)
        }
    }

    /// Barlow's weights: for the prime p, 60,060 times (p - 1)²/p.
    pub fn barlow() -> WeightedPrimes
        ensures held { result.weights ≡ barlow_weights }
        ensures rule { AllZip ByBarlow primes result.weights }
    {
        WeightedPrimes {
            weights: [30_030, 80_080, 192_192, 308_880, 546_000, 665_280],
        }
    }

    /// Euler's weights: for the prime p, p - 1.
    pub fn euler() -> WeightedPrimes
        ensures { result.weights ≡ euler_weights }
    {
        WeightedPrimes {
            weights: [1, 2, 4, 6, 10, 12],
        }
    }
}

impl Measure for WeightedPrimes {
    ghost dist = { λ m a b. weighted_distance m.weights a b };

    ghost zero = { λ m a. weighted_zero m.weights a.exponents };

    ghost both = { λ m a b. weighted_both m.weights a.exponents b.exponents };

    ghost triangle = { λ m a b c. weighted_triangle m.weights a.exponents b.exponents c.exponents (omega (arith, m.six, b.six)) };

    ghost bounded = { λ m a b. weighted_bounded m.weights m.six m.allowed a b };

    /// The distance, which is 0 only between equal ratios, and is the harmonic distance with these weights as the
    /// disharmonicities of the primes.
    fn distance(&self, a: &Ratio, b: &Ratio) -> u32
        ensures value { result ≡ weighted_distance self.now.weights a.now b.now }
        ensures separates { result ≡ 0 → a.now ≡ b.now }
        ensures harmonic { HarmonicDistance self.now.weights a.now b.now result }
        ensures only { (g : ℕ) → HarmonicDistance self.now.weights a.now b.now g → g ≡ result }
    {
        let start = a.exponents();
        let end = b.exponents();
        self.weights
            .iter()
            .zip(start.iter().zip(&end))
            .map(|(weight, (from, to))| weight * u32::from(from.abs_diff(*to)))
            .sum()
    }

    /// The disharmonicity of a ratio: that of its numerator plus that of its denominator, where on whole numbers the
    /// disharmonicity of a product is the sum of those of its factors.
    fn disharmonicity(&self, a: &Ratio) -> u32
        ensures value { result ≡ weighted_distance self.now.weights unison a.now }
        ensures parts { SumOfParts self.now.weights (numerator a.now.exponents) (denominator a.now.exponents) result }
        ensures additive { Additive self.now.weights }
    {
        // stays (no plainer): the trait's own body again, since only a body of its own can carry `parts` and `additive`
        self.distance(&Ratio::unison(), a)
    }
}
