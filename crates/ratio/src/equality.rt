//! When two ratios are equal.

ghost use Rattle.std.specs.Prelude.{◌≡◌, Decides};
ghost use Rattle.std.specs.Cmp.Lexicographic.{pointwise};
ghost use Rattle.std.specs.Cmp.Rules.{comparing};
ghost use Rattle.std.specs.Ordering.{int_eq};
ghost use Rattle.std.proofs.Common.{rules};

use crate::ratio::Ratio;

/// True exactly if the two ratios are one, which is so exactly if their exponents are equal.
// stays (rule): a derived `==` is proved too, but promises `exponents` alone; the public promise `equals` would be lost
impl PartialEq for Ratio {
    ghost eq = { λ a b. pointwise int_eq a.exponents b.exponents };

    ghost laws = { Prim.search (comparing, rules) };

    fn eq(&self, other: &Ratio) -> bool
        ensures exponents { result ≡ pointwise int_eq self.now.exponents other.now.exponents }
        ensures equals { Decides result (self.now ≡ other.now) }
    {
        self.exponents == other.exponents
    }
}

impl Eq for Ratio {
    ghost laws = { Prim.search (comparing, rules) };
}
