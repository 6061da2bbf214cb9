//! Entry of a ratio from two numbers.

ghost use Rattle.std.specs.Prelude.{◌≡◌, ℕ, ◌*◌, ◌%◌, ◌^◌, ◌<◌, ◌≤◌, All, Result, ◌≢◌};
ghost use Rattle.ratio.specs.Entry.{Entered};
ghost use Rattle.ratio.specs.Computed.{entry};
ghost use Rattle.ratio.specs.declared.fault.RatioFault.{RatioFault};
ghost use Rattle.ratio.specs.declared.ratio.Ratio.{Ratio};
ghost use Rattle.ratio.specs.Factors.{Without, minus};
ghost use Rattle.ratio.specs.Products.{product, primes};

use crate::fault::RatioFault;
use crate::ratio::{LARGEST_PART, PRIMES, Ratio};
use std::array;

/// A number taken apart: how often each of the six primes divides it, and what is left without them.
#[derive(Clone, Copy)]
struct Factors {
    multiplicities: [u8; 6],
    rest: u64,
    ghost few: { All (λ k. k < 32) multiplicities },
    ghost left: { Without primes rest },
}

impl Ratio {
    /// The ratio `numerator / denominator` in lowest terms.
    ///
    /// Refuses a part that is 0, then a part over 4,294,967,295, then a quotient in which a prime above 13 is left
    /// after common factors are cancelled: 34/17 is 2/1, and 17/16 is refused.
    #[tactic(auto, using(crate::proofs::Entered::entered_once, crate::proofs::Computed::entry_large))]
    pub fn new(numerator: u64, denominator: u64) -> Result<Ratio, RatioFault>
        ensures entered { Entered numerator denominator result }
        ensures only { (s : Result Ratio RatioFault) → Entered numerator denominator s → s ≡ result }
        ensures value { result ≡ entry numerator denominator }
    {
        if numerator == 0 || denominator == 0 {
            return Err(RatioFault::ZeroPart);
        }
        if numerator > LARGEST_PART || denominator > LARGEST_PART {
            return Err(RatioFault::PartTooLarge);
        }
        let above = Factors::of(numerator);
        let below = Factors::of(denominator);
        // the primes above 13 cancel exactly if what is left is the same above and below
        if above.rest != below.rest {
            return Err(RatioFault::PrimeLeft);
        }
        Ok(Ratio {
            exponents: above.minus(&below),
        })
    }
}

impl Factors {
    fn of(number: u64) -> Factors
        requires { (0 < number) × (number ≤ 4294967295) }
        ensures { number ≡ product primes result.multiplicities * result.rest }
    {
        let mut powers = PRIMES.map(|prime| (prime, 0));
        let mut rest = number;
        for (prime, times) in &mut powers {
            (*times, rest) = divided_out(rest, u64::from(*prime));
        }
        Factors {
            multiplicities: powers.map(|(_, times)| times),
            rest,
        }
    }

    /// Place by place, how much more often a prime divides this number than the other.
    fn minus(&self, other: &Factors) -> [i8; 6]
        ensures { result ≡ minus self.now.multiplicities other.now.multiplicities }
    {
        // stays (no plainer): an array has no `zip`, so a place tells which two belong together; `as`, since both fit by proof
        array::from_fn(|place| {
            self.multiplicities[place] as i8 - other.multiplicities[place] as i8
        })
    }
}

/// How often `prime` divides `number`, and what is left without it.
#[tactic(auto, using(crate::proofs::Multiplicities::few_times, crate::proofs::Multiplicities::one_more, crate::proofs::Multiplicities::some_left, crate::proofs::Multiplicities::halves))]
fn divided_out(number: u64, prime: u64) -> (u8, u64)
    requires { (0 < number) × (number ≤ 4294967295) × (1 < prime) }
    ensures parts { number ≡ prime ^ result.0 * result.1 }
    ensures left { result.1 % prime ≢ 0 }
    ensures few { result.0 < 32 }
{
    let mut times = 0;
    let mut rest = number;
    while rest % prime == 0 {
        rest /= prime;
        times += 1;
    }
    (times, rest)
}
