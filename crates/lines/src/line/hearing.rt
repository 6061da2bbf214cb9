//! How a line is read byte by byte.

ghost use Rattle.std.specs.Prelude.{◌≡◌, ℕ, List, [], ◌∷◌, ◌++◌, Decides, MatchOption, ◌≢◌};
ghost use Rattle.lines.specs.Hearing.{held, Heard, OneByte, OneMore};
ghost use Rattle.lines.specs.Splitting.{ended, open_line, all_lines};

use super::Line;
use crate::split::ends_line;
use places::Places;

impl Line {
    /// A line of which nothing is read yet.
    pub fn new() -> Line
        ensures heard { Heard result [] }
    {
        Line {
            bytes: Places::empty(0),
        }
    }

    /// Reads one byte more of the line. Beyond 81 bytes it keeps nothing more.
    pub fn push(&mut self, byte: u8)
        ensures heard { (past : List ℕ) → Heard self.old past → Heard self.new (past ++ (byte ∷ [])) }
    {
        let _ = self.bytes.push(byte);
    }

    /// Begins a new line.
    pub fn clear(&mut self)
        ensures heard { Heard self.new [] }
    {
        self.bytes.clear();
    }

    /// The bytes of the line, at most its first 81.
    pub fn bytes(&self) -> &[u8]
        ensures held { result.now ≡ held self.now }
    {
        self.bytes.as_slice()
    }

    /// Whether nothing of the line is read yet.
    pub fn is_empty(&self) -> bool
        ensures nothing_held { Decides result (held self.now ≡ []) }
        ensures nothing_heard { (past : List ℕ) → Heard self.now past → Decides result (past ≡ []) }
    {
        self.bytes.is_empty()
    }

    /// Hears one byte more of an input: the line that it ends, if it ends one. A new line then begins.
    pub fn hear(&mut self, byte: u8) -> Option<Line>
        ensures byte { (past : List ℕ) → Heard self.old past → OneByte byte past result self.new }
        ensures heard { (past : List ℕ) → Heard self.old (open_line past) → Heard self.new (open_line (past ++ (byte ∷ []))) }
        ensures tells { (past : List ℕ) → Heard self.old (open_line past) → OneMore result (open_line past) (ended past) (ended (past ++ (byte ∷ []))) }
    {
        if ends_line(byte) {
            let line = *self;
            self.clear();
            Some(line)
        } else {
            self.push(byte);
            None
        }
    }

    /// The last line of the input, if it is not empty: no byte 10 has ended it.
    pub fn finish(&self) -> Option<Line>
        ensures rest { MatchOption result (held self.now ≡ []) (λ told. (told ≡ self.now) × (held self.now ≢ [])) }
        ensures tells { (past : List ℕ) → Heard self.now (open_line past) → OneMore result (open_line past) (ended past) (all_lines past) }
    {
        (!self.is_empty()).then_some(*self)
    }
}
