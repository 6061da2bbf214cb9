//! The costing by the largest distance.

ghost use Rattle.std.specs.Prelude.{max};
ghost use Rattle.std.proofs.Common.{rules};

use crate::joining::Joining;

/// A scale costs its largest distance.
#[derive(Clone, Copy, Debug, PartialEq, Eq)]
pub struct Worst;

impl Joining for Worst {
    ghost join = { max };

    ghost unstopped = { max };

    ghost associative = { Prim.search rules };

    ghost commutative = { Prim.search rules };

    ghost neutral = { Prim.search rules };

    ghost grows = { Prim.search rules };

    fn join(&self, a: u64, b: u64) -> u64 {
        a.max(b)
    }
}
