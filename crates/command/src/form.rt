//! The forms of words that write numbers.

ghost use Rattle.std.specs.Prelude.{◌≡◌, ℕ, ◌^◌, ◌<◌, ℤ, Some, decimal, unsigned_abs};
ghost use Rattle.command.specs.Forms.{NumberRead, CentsRead};
ghost use Rattle.command.specs.Unsigned.{UnsignedRead};
ghost use Rattle.lines.specs.Decimals.{signed_decimals};

/// The most digits that a number may have.
const MOST_DIGITS: usize = 10;

/// The number that a word of 1 to 10 digits writes; zeros may lead. Refuses every other word.
pub fn read_number(word: &[u8]) -> Option<u64>
    ensures form { NumberRead word.now result }
    ensures again { (n : ℕ) → n < 10 ^ 10 → word.now ≡ decimal n → result ≡ Some n }
{
    if word.is_empty() || word.len() > MOST_DIGITS {
        return None;
    }
    let mut number = 0;
    // stays (speed): `parse` behind a test of the digits takes 100,000 entries from 12.4 ms to 14.4, where the rivals take 10.7
    for byte in word {
        if !byte.is_ascii_digit() {
            return None;
        }
        number = number * 10 + u64::from(*byte - b'0');
    }
    Some(number)
}

/// The number that a word writes, as the place of a tone or a candidate.
pub(crate) fn read_place(word: &[u8]) -> Option<usize>
    ensures { NumberRead word.now result }
{
    usize::try_from(read_number(word)?).ok()
}

/// The thousandths of a cent that a word of cents writes: a minus or none, 1 to 5 digits, a period, 3 digits; zeros may
/// lead. Refuses every other word.
pub fn read_cents(word: &[u8]) -> Option<i32>
    ensures form { CentsRead word.now result }
    ensures again { (p : ℤ) → unsigned_abs p < 10 ^ 8 → word.now ≡ signed_decimals 3 p → result ≡ Some p }
{
    match word {
        [b'-', rest @ ..] => Some(-read_unsigned(rest)?),
        _ => read_unsigned(word),
    }
}

/// The thousandths that 1 to 5 digits, a period and 3 digits write.
fn read_unsigned(word: &[u8]) -> Option<i32>
    ensures { UnsignedRead word.now result }
{
    let (front, thousandths) = word.split_last_chunk::<3>()?;
    let [wholes @ .., b'.'] = front else {
        return None;
    };
    if wholes.len() > 5 {
        return None;
    }
    let wholes = read_number(wholes)?;
    let thousandths = read_number(thousandths)?;
    i32::try_from(wholes * 1000 + thousandths).ok()
}
