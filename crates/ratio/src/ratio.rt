//! A ratio of the bench by its six exponents.

ghost use Rattle.std.specs.Prelude.{◌≡◌, ◌≤◌, length};
ghost use Rattle.ratio.specs.Products.{numerator, denominator};

/// The largest numerator and the largest denominator.
pub const LARGEST_PART: u64 = 4_294_967_295;

/// The primes that a ratio may hold, in rising order.
pub const PRIMES: [u32; 6] = [2, 3, 5, 7, 11, 13];

/// A ratio in lowest terms, its numerator and denominator from 1 to 4,294,967,295 and made of the six primes alone.
///
/// It is held as the signed exponents of the primes: 45/32 is -5, 2, 1, 0, 0, 0. Two ratios are equal exactly if their
/// exponents are.
#[derive(Clone, Copy, Debug)]
pub struct Ratio {
    pub(crate) exponents: [i8; 6],
    ghost six: { length exponents ≡ 6 },
    ghost numerator_fits: { numerator exponents ≤ 4294967295 },
    ghost denominator_fits: { denominator exponents ≤ 4294967295 },
}
