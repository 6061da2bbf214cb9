//! The costing by the sum of the distances.

ghost use Rattle.std.specs.Prelude.{◌≡◌, ◌+◌, ◌-◌, ◌^◌, min};
ghost use Rattle.costing.specs.Costs.{added};
ghost use Rattle.std.proofs.Common.{rules};

use crate::joining::Joining;

/// A scale costs the sum of its distances, and at most 2^64 - 1, where the sum stops.
#[derive(Clone, Copy, Debug, PartialEq, Eq)]
pub struct Total;

impl Joining for Total {
    ghost join = { added };

    ghost unstopped = { λ a b. a + b };

    ghost associative = { Prim.search rules };

    ghost commutative = { Prim.search rules };

    ghost neutral = { Prim.search rules };

    ghost grows = { Prim.search rules };

    /// The sum, which stops at the largest number of 64 bits.
    fn join(&self, a: u64, b: u64) -> u64
        ensures value { result ≡ added a b }
        ensures stopped { result ≡ min (a + b) (2 ^ 64 - 1) }
    {
        a.saturating_add(b)
    }
}
