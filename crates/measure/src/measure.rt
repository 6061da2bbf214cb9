//! What every measure of the distance between two ratios promises.

ghost use Rattle.std.specs.Prelude.{◌≡◌, ℕ, ◌+◌, ◌≤◌};
ghost use Rattle.ratio.specs.Parts.{unison};
ghost use Rattle.ratio.specs.declared.ratio.Ratio.{Ratio};

use ratio::ratio::Ratio;

/// A distance between ratios.
///
/// It is 0 from a ratio to itself, the same both ways, no longer than by way of a third ratio, and at most 2^30.
pub trait Measure {
    ghost dist: { Self → Ratio → Ratio → ℕ };

    /// The distance between two ratios; none is refused.
    fn distance(&self, a: &Ratio, b: &Ratio) -> u32
        ensures { result ≡ dist self.now a.now b.now };

    /// The disharmonicity of a ratio, its distance from 1/1; none is refused.
    fn disharmonicity(&self, a: &Ratio) -> u32
        ensures { result ≡ dist self.now unison a.now }
    {
        self.distance(&Ratio::unison(), a)
    }

    ghost zero: { (m : Self) (a : Ratio) → dist m a a ≡ 0 };

    ghost both: { (m : Self) (a b : Ratio) → dist m a b ≡ dist m b a };

    ghost triangle: { (m : Self) (a b c : Ratio) → dist m a c ≤ dist m a b + dist m b c };

    ghost bounded: { (m : Self) (a b : Ratio) → dist m a b ≤ 1073741824 };
}
