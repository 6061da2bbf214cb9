//! The words that write a ratio in a line.

ghost use Rattle.std.specs.Prelude.{◌≡◌, ◌<◌};
ghost use Rattle.ratio.specs.Scanning.{with_digit, step_of, stepped};
ghost use Rattle.ratio.specs.Words.{Digit, PartsRead};

use std::marker::Model;

/// The most digits that a number of a word may have.
const MOST_DIGITS: u8 = 10;

/// The digits of one number as far as they are read: the number that they write, and how many they are.
#[derive(Clone, Copy)]
struct Part {
    number: u64,
    digits: u8,
}

impl Model for Part {
    ghost use Rattle.std.specs.Prelude.{◌<◌, ◌^◌, ◌≤◌};
    ghost use Rattle.ratio.specs.Part.{PartRead};

    ghost Value = { PartRead };

    ghost view = { λ p. record { number = p.number; digits = p.digits } };

    ghost invariant = { λ p. (p.digits ≤ 10) × (p.number < 10 ^ p.digits) };

    ghost inverse = { λ v. record { number = v.number; digits = v.digits } };
}

impl Part {
    /// A part before its first digit.
    const EMPTY: Part = Part {
        number: 0,
        digits: 0,
    };

    /// The part with one more digit.
    fn then(self, digit: u8) -> Part
        requires { (self.digits < 10) × Digit digit }
        ensures { result ≡ with_digit self digit }
    {
        Part {
            number: self.number * 10 + u64::from(digit - b'0'),
            digits: self.digits + 1,
        }
    }
}

/// How far the scan of a ratio word has come, with what it read so far.
// stays (rule): a ratio word is read by a scanner in place, which matches its own state with the next byte
#[derive(Clone, Copy)]
enum Scanner {
    Start,
    /// The digits of the numerator so far.
    Numerator(Part),
    /// The numerator.
    SlashSeen(u64),
    /// The numerator, and the digits of the denominator so far.
    Denominator(u64, Part),
}

impl Scanner {
    /// Moves on by the next byte of the word. Refuses a byte by which no ratio word goes on.
    fn take(&mut self, byte: u8) -> Option<()>
        ensures { stepped result self.new ≡ step_of self.old byte }
    {
        *self = match (&*self, byte) {
            (Scanner::Start, b'0'..=b'9') => Scanner::Numerator(Part::EMPTY.then(byte)),
            (Scanner::Numerator(n), b'0'..=b'9') if n.digits < MOST_DIGITS => Scanner::Numerator(
                n.then(byte),
            ),
            (Scanner::Numerator(n), b'/') => Scanner::SlashSeen(n.number),
            (Scanner::SlashSeen(n), b'0'..=b'9') => Scanner::Denominator(
                *n,
                Part::EMPTY.then(byte),
            ),
            (Scanner::Denominator(n, d), b'0'..=b'9') if d.digits < MOST_DIGITS =>
                Scanner::Denominator(*n, d.then(byte)),
            _ => return None,
        };
        Some(())
    }
}

/// The numerator and the denominator of a ratio word as it writes them, not in lowest terms.
///
/// A ratio word is 1 to 10 digits, a slash, and 1 to 10 digits; zeros may lead. Refuses every other word.
#[tactic(auto, using(crate::proofs::Scans::run_more, crate::proofs::Scans::scan_reads))]
pub fn read_parts(word: &[u8]) -> Option<(u64, u64)>
    ensures form { PartsRead word.now result }
{
    let mut scanner = Scanner::Start;
    for byte in word {
        scanner.take(*byte)?;
    }
    match scanner {
        Scanner::Denominator(n, d) => Some((n, d.number)),
        _ => None,
    }
}
