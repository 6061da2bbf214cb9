//! The texts of answers, written into a buffer that is lent.

ghost use Rattle.std.specs.Prelude.{◌≡◌, ◌+◌, ◌<◌, ◌≤◌, ◌∷◌, [], ◌++◌, length, decimal};
ghost use Rattle.ratio.specs.Printing.{ratio_text};
ghost use Rattle.refusal.specs.Texts.{refusal_line};

use itoa::Buffer;
use lines::split::LINE_END;
use ratio::ratio::Ratio;
use refusal::Refusal;

/// A buffer that text is written into from its start on.
///
/// Each method writes its text behind what is written already, where there is room for it, and changes nothing else.
// stays (proof): not by Display, as fmt::Write and Display tell nothing of an Err, and a line must always be answered
#[derive(Drop)]
pub(crate) struct Page<'a> {
    out: &'a mut [u8],
    end: usize,
    ghost within: { end ≤ length out.now },
}

impl<'a> Page<'a> {
    ghost use Rattle.session.specs.Pages.{Fresh, Written, offset_text};

    /// A page over this buffer, on which nothing is written yet.
    pub(crate) fn over(out: &'a mut [u8]) -> Page<'a>
        ensures same_reference { result.out.ghost_name ≡ out.entry.ghost_name }
        ensures fresh { Fresh out.old result }
    {
        Page { out, end: 0 }
    }

    /// How many bytes are written.
    pub(crate) fn end(&self) -> usize
        ensures { result ≡ self.now.end }
    {
        self.end
    }

    /// Writes the bytes of `text`.
    pub(crate) fn text(&mut self, text: &[u8])
        ensures written { Written self.old text.now self.new }
        ensures no_room { length self.old.out.now < self.old.end + length text.now → (self.new.end ≡ self.old.end) × (self.new.out.now ≡ self.old.out.now) }
    {
        let end = self.end + text.len();
        if end <= self.out.len() {
            self.out[self.end..end].copy_from_slice(text);
            self.end = end;
        }
    }

    /// Writes the digits of `number`.
    pub(crate) fn number(&mut self, number: u64)
        ensures written { Written self.old (decimal number) self.new }
    {
        // most numbers of an answer have one digit, which takes a quarter of the instructions of a buffer
        if number < 10 {
            // stays (no plainer): `as` of a digit, which is proved to fit; `try_from` would add a case that never is
            self.text(&[b'0' + number as u8]);
        } else {
            self.text(Buffer::new().format(number).as_bytes());
        }
    }

    /// Writes a ratio as numerator, slash and denominator.
    pub(crate) fn ratio(&mut self, ratio: &Ratio)
        ensures written { Written self.old (ratio_text ratio.now) self.new }
    {
        self.number(u64::from(ratio.numerator()));
        self.text(b"/");
        self.number(u64::from(ratio.denominator()));
    }

    /// Writes thousandths of a cent as cents with a sign and two decimals: -13686 is `-13.68`.
    ///
    /// The third decimal is dropped, and what is then zero has a plus: -9 is `+0.00`.
    pub(crate) fn offset(&mut self, thousandths: i64)
        ensures written { Written self.old (offset_text thousandths) self.new }
    {
        let sign = if thousandths <= -10 { b'-' } else { b'+' };
        let hundredths = thousandths.unsigned_abs() / 10;
        // stays (no plainer): `as` of digits, which are proved to fit; `try_from` would add a case that never is
        let tenth = b'0' + (hundredths / 10 % 10) as u8;
        let hundredth = b'0' + (hundredths % 10) as u8;
        self.text(&[sign]);
        self.number(hundredths / 100);
        self.text(&[b'.', tenth, hundredth]);
    }

    /// Writes a refusal as a line: `no`, layer, number and column, and the byte that ends the line.
    pub(crate) fn refusal(&mut self, refusal: Refusal)
        ensures written { Written self.old (refusal_line refusal ++ (10 ∷ [])) self.new }
    {
        self.text(b"no ");
        self.text(refusal.layer.word().as_bytes());
        self.text(b" ");
        self.number(u64::from(refusal.number));
        self.text(b" ");
        self.number(refusal.column as u64);
        self.text(&[LINE_END]);
    }
}
