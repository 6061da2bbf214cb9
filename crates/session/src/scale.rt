//! The answer that tells a scale.

ghost use Rattle.std.specs.Prelude.{◌≡◌, ◌≤◌, length, slice_index_or};
ghost use Rattle.draft.specs.Book.{Book};
ghost use Rattle.draft.specs.Held.{Holds, listed};
ghost use Rattle.ratio.specs.Parts.{unison};
ghost use Rattle.session.specs.Answers.{heading, ratio_line, scale_text};

use crate::page::Page;
use draft::draft::Draft;
use draft::tone::Tone;
use ratio::ratio::Ratio;
use settling::settle::{Settled, Sheet};

impl<'a> Page<'a> {
    ghost use Rattle.session.specs.Pages.{Written};

    /// Writes cost and trials of a scale, and a line for each tone.
    pub(crate) fn scale(&mut self, draft: &Draft, sheet: &Sheet, settled: Settled<u64>)
        ensures written { (b : Book) → Holds draft.now b → Written self.old (scale_text b sheet.now settled) self.new }
        ensures short { (b : Book) → Holds draft.now b → length (scale_text b sheet.now settled) ≤ 1280 }
    {
        self.heading(settled);
        for (tone, number) in draft.listed().iter().zip(sheet) {
            self.tone(&laid(tone, *number), tone.pitch());
        }
    }

    /// Writes `scale`, cost and trials.
    fn heading(&mut self, settled: Settled<u64>)
        ensures written { Written self.old (heading settled) self.new }
    {
        self.text(b"scale ");
        self.number(settled.cost);
        self.text(b" ");
        self.number(settled.trials);
        self.text(b"\n");
    }

    /// Writes the line of a tone: the ratio that is laid there, and how far it lies from the tone's own pitch.
    fn tone(&mut self, ratio: &Ratio, pitch: i32)
        ensures written { Written self.old (ratio_line ratio.now pitch) self.new }
        ensures short { length (ratio_line ratio.now pitch) ≤ 37 }
    {
        self.ratio(ratio);
        self.text(b" ");
        self.offset(i64::from(ratio.pitch()) - i64::from(pitch));
        self.text(b"\n");
    }
}

/// The ratio that this number of a tone lays there.
fn laid(tone: &Tone, number: u8) -> Ratio
    ensures laid { result ≡ slice_index_or (listed tone.now) number unison }
{
    tone.candidates()
        .get(usize::from(number))
        .copied()
        .unwrap_or(Ratio::unison())
}
