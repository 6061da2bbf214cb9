//! How the table follows its input.

ghost use Rattle.std.specs.Prelude.{◌≡◌, ℕ, List, [], ◌∷◌, ◌++◌};
ghost use Rattle.interval.specs.Answers.{AllAnswered, Answered, Followed, answer_text, spoken};
ghost use Rattle.lines.specs.Hearing.{held};
ghost use Rattle.lines.specs.Splitting.{all_lines};

use super::Table;
use crate::answer::Answer;
use lines::line::Line;
use lines::split::ends_line;

impl Table {
    /// A table that has heard nothing.
    pub fn new() -> Table
        ensures followed { Followed result [] [] }
    {
        Table { line: Line::new() }
    }

    /// Hears one byte more: the answer to the line that it ends, if it ends one.
    pub fn hear(&mut self, byte: u8) -> Option<Answer>
        ensures followed { (past said : List ℕ) → Followed self.old past said → Followed self.new (past ++ (byte ∷ [])) (said ++ spoken result) }
    {
        // stays (speed): Line::hear hands out room for a line at each byte: 100 million bytes of long lines took 2.7 s, not 0.8
        if !ends_line(byte) {
            self.line.push(byte);
            return None;
        }
        self.line.hear(byte).map(answer)
    }

    /// The answer to a last line that no byte 10 has ended, if there is one.
    pub fn finish(&self) -> Option<Answer>
        ensures answered { (past said : List ℕ) → Followed self.now past said → AllAnswered (all_lines past) (said ++ spoken result) }
    {
        self.line.finish().map(answer)
    }
}

/// The answer to a line that was heard.
fn answer(line: Line) -> Answer
    ensures answered { Answered (held line) (answer_text result) }
{
    Answer::to(line.bytes())
}
