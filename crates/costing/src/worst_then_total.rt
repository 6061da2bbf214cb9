//! The costing by the largest distance, and between equals by the sum.

ghost use Rattle.std.specs.Prelude.{◌≡◌, ◌+◌, ◌-◌, ◌^◌, min, max};
ghost use Rattle.costing.specs.Costs.{pair_joined, pair_within};
ghost use Rattle.std.proofs.Common.{rules};

use crate::costing::Costing;
use crate::total::Total;
use crate::worst::Worst;

/// A scale costs its largest distance and the sum of its distances, compared by the largest first and then by the sum.
#[derive(Clone, Copy, Debug, PartialEq, Eq)]
pub struct WorstThenTotal;

impl Costing for WorstThenTotal {
    type Value = (u64, u64);

    ghost nil = { (0, 0) };

    ghost worth = { λ distance. (distance, distance) };

    ghost join = { pair_joined };

    ghost within = { pair_within };

    ghost associative = { Prim.search rules };

    ghost commutative = { Prim.search rules };

    ghost neutral = { Prim.search rules };

    ghost reflexive = { Prim.search rules };

    ghost transitive = { Prim.search rules };

    ghost comparable = { Prim.search rules };

    ghost antisymmetric = { Prim.search rules };

    ghost grows = { Prim.search rules };

    fn nothing(&self) -> (u64, u64) {
        (Worst.nothing(), Total.nothing())
    }

    fn of(&self, distance: u32) -> (u64, u64) {
        (Worst.of(distance), Total.of(distance))
    }

    /// The larger of the largest distances, and the sum, which stops at the largest number of 64 bits.
    fn joined(&self, a: (u64, u64), b: (u64, u64)) -> (u64, u64)
        ensures value { result ≡ pair_joined a b }
        ensures stopped { result.1 ≡ min (a.1 + b.1) (2 ^ 64 - 1) }
    {
        (Worst.joined(a.0, b.0), Total.joined(a.1, b.1))
    }

    fn no_more(&self, a: (u64, u64), b: (u64, u64)) -> bool {
        a <= b
    }
}
