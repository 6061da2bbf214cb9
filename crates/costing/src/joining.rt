//! The costings by numbers.

ghost use Rattle.std.specs.Prelude.{◌≡◌, ℕ, ◌-◌, ◌^◌, ◌≤◌, min, nat_le};
ghost use Rattle.std.proofs.Common.{rules};

use crate::costing::Costing;

/// How a costing by numbers joins two costs; in all else such costings are alike.
///
/// Its meaning is `join`; on numbers of 64 bits it is `unstopped`, stopped at the largest of them.
///
/// Numbers join in any order and grouping, 0 adds nothing, and no number is more than its joining with another.
pub trait Joining {
    ghost join: { ℕ → ℕ → ℕ };

    ghost unstopped: { ℕ → ℕ → ℕ };

    /// The two numbers as one.
    fn join(&self, a: u64, b: u64) -> u64
        ensures value { result ≡ join a b }
        ensures stopped { result ≡ min (unstopped a b) (2 ^ 64 - 1) };

    ghost associative: { (a b c : ℕ) → join (join a b) c ≡ join a (join b c) };

    ghost commutative: { (a b : ℕ) → join a b ≡ join b a };

    ghost neutral: { (a : ℕ) → join 0 a ≡ a };

    ghost grows: { (a b : ℕ) → a ≤ join a b };
}

/// No distances cost 0, one distance costs itself, and the lower number is the lower cost.
impl<J: Joining> Costing for J {
    type Value = u64;

    ghost nil = { 0 };

    ghost worth = { λ distance. distance };

    ghost join = { J.join };

    ghost within = { nat_le };

    ghost associative = { J.associative };

    ghost commutative = { J.commutative };

    ghost neutral = { J.neutral };

    ghost reflexive = { Prim.search rules };

    ghost transitive = { Prim.search rules };

    ghost comparable = { Prim.search rules };

    ghost antisymmetric = { Prim.search rules };

    ghost grows = { let grows = J.grows in Prim.search rules };

    fn nothing(&self) -> u64 {
        0
    }

    fn of(&self, distance: u32) -> u64 {
        u64::from(distance)
    }

    fn joined(&self, a: u64, b: u64) -> u64
        ensures value { result ≡ J.join a b }
        ensures stopped { result ≡ min (J.unstopped a b) (2 ^ 64 - 1) }
    {
        self.join(a, b)
    }

    fn no_more(&self, a: u64, b: u64) -> bool {
        a <= b
    }
}
