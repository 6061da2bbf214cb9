//! Numbers that are written with a fixed count of decimals.

ghost use Rattle.lines.specs.Decimals.{with_decimals, signed_decimals};
ghost use Rattle.std.specs.Prelude.{◌<◌, ◌≤◌, Some};

use std::fmt;

/// A count of hundredths, written with two decimals: 1673 is `16.73`.
#[derive(Clone, Copy, Debug, PartialEq, Eq)]
pub struct Hundredths(pub u32);

/// A count of parts of which 10 to the power `PLACES` are a whole, written with that many decimals.
#[derive(Clone, Copy)]
struct Decimals<const PLACES: u32> {
    parts: u32,
    ghost some: { 0 < PLACES },
    ghost few: { PLACES ≤ 9 },
}

impl<const PLACES: u32> fmt::Display for Decimals<PLACES> {
    ghost output = { λ amount. Some (with_decimals PLACES amount.parts) };

    fn fmt<W: fmt::Write>(&self, f: &mut fmt::Formatter<W>) -> fmt::Result {
        let whole = 10_u32.pow(PLACES);
        let width = PLACES as usize;
        write!(f, "{}.{:0width$}", self.parts / whole, self.parts % whole)
    }
}

impl fmt::Display for Hundredths {
    ghost output = { λ amount. Some (with_decimals 2 amount.0) };

    fn fmt<W: fmt::Write>(&self, f: &mut fmt::Formatter<W>) -> fmt::Result {
        let amount = Decimals::<2> { parts: self.0 };
        write!(f, "{amount}")
    }
}

/// A count of thousandths, written with three decimals: -13686 is `-13.686`.
#[derive(Clone, Copy, Debug, PartialEq, Eq)]
pub struct Thousandths(pub i32);

impl fmt::Display for Thousandths {
    ghost output = { λ amount. Some (signed_decimals 3 amount.0) };

    fn fmt<W: fmt::Write>(&self, f: &mut fmt::Formatter<W>) -> fmt::Result {
        let sign = if self.0 < 0 { "-" } else { "" };
        let magnitude = Decimals::<3> {
            parts: self.0.unsigned_abs(),
        };
        write!(f, "{sign}{magnitude}")
    }
}

#[cfg(test)]
mod tests {
    use super::*;
    use std::test::Fail;

    #[test]
    fn decimals(rt: HostRuntime) -> Result<(), Fail> {
        let heap = rt.alloc();
        assert_eq!(rt; Thousandths(590224).to_string(heap)?.as_str(), "590.224");
        assert_eq!(rt; Thousandths(-13686).to_string(heap)?.as_str(), "-13.686");
        assert_eq!(rt; Thousandths(-5).to_string(heap)?.as_str(), "-0.005");
        assert_eq!(rt; Thousandths(0).to_string(heap)?.as_str(), "0.000");
        assert_eq!(rt; Hundredths(1673).to_string(heap)?.as_str(), "16.73");
        assert_eq!(rt; Hundredths(5).to_string(heap)?.as_str(), "0.05");
        Ok(())
    }
}
