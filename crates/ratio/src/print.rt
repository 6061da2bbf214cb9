//! Lowest terms of a ratio, and its text.

ghost use Rattle.std.specs.Prelude.{◌≡◌, map, neg_ℤ, Some};
ghost use Rattle.ratio.specs.Printing.{ratio_text};
ghost use Rattle.ratio.specs.Products.{numerator, denominator, LowestTerms};

use crate::ratio::{PRIMES, Ratio};
use std::fmt;

impl Ratio {
    /// The numerator in lowest terms.
    pub fn numerator(&self) -> u32
        ensures { result ≡ numerator self.now.exponents }
    {
        let mut product = 1;
        for (prime, exponent) in PRIMES.iter().zip(&self.exponents) {
            if let Ok(times) = u32::try_from(*exponent) {
                // most exponents are 0, and a test takes less time than a power
                if times > 0 {
                    product *= prime.pow(times);
                }
            }
        }
        product
    }

    /// The denominator in lowest terms.
    pub fn denominator(&self) -> u32
        ensures value { result ≡ denominator self.now.exponents }
        ensures lowest { LowestTerms (numerator self.now.exponents) result }
    {
        self.recip().numerator()
    }

    /// The ratio with numerator and denominator exchanged.
    pub fn recip(&self) -> Ratio
        ensures { result.exponents ≡ map neg_ℤ self.now.exponents }
    {
        Ratio {
            exponents: self.exponents.map(|exponent| -exponent),
        }
    }
}

impl fmt::Display for Ratio {
    ghost output = { λ ratio. Some (ratio_text ratio) };

    fn fmt<W: fmt::Write>(&self, f: &mut fmt::Formatter<W>) -> fmt::Result {
        let numerator = self.numerator();
        let denominator = self.denominator();
        write!(f, "{numerator}/{denominator}")
    }
}
