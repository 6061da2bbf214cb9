//! The ratio that a line names.

ghost use Rattle.std.specs.Prelude.{◌≡◌, Ok, Result};
ghost use Rattle.ratio.specs.Printing.{ratio_text};
ghost use Rattle.ratio.specs.declared.ratio.Ratio.{Ratio};
ghost use Rattle.interval.specs.Naming.{Named};
ghost use Rattle.interval.specs.declared.fault.LineFault.{LineFault};

use crate::fault::LineFault;
use lines::line::LONGEST_LINE;
use ratio::ratio::Ratio;
use ratio::word::read_parts;

/// The ratio that the line names; a ratio that was printed is named by its text.
///
/// Refuses a line over 80 bytes, then a line that is no ratio word, then two numbers that name no ratio.
pub fn named(line: &[u8]) -> Result<Ratio, LineFault>
    ensures names { Named line.now result }
    ensures only { (s : Result Ratio LineFault) → Named line.now s → s ≡ result }
    ensures again { (x : Ratio) → line.now ≡ ratio_text x → result ≡ Ok x }
{
    if line.len() > LONGEST_LINE {
        return Err(LineFault::TooLong);
    }
    let Some((numerator, denominator)) = read_parts(line) else {
        return Err(LineFault::NoRatioWord);
    };
    Ok(Ratio::new(numerator, denominator)?)
}
