//! Where a line ends.

ghost use Rattle.std.specs.Prelude.{◌≡◌, ℕ, List, [], ◌∷◌, ◌++◌, if◌then◌else◌};
ghost use Rattle.lines.specs.Splitting.{ended, open_line, Split};

/// The byte that ends a line.
pub const LINE_END: u8 = 10;

/// Whether the byte ends the line that is being read; any other byte goes on with it.
pub fn ends_line(byte: u8) -> bool
    ensures ends { (past : List ℕ) → ended (past ++ (byte ∷ [])) ≡ ended past ++ (if result then open_line past ∷ [] else []) }
    ensures goes_on { (past : List ℕ) → open_line (past ++ (byte ∷ [])) ≡ (if result then [] else open_line past ++ (byte ∷ [])) }
    ensures splits { (input : List ℕ) → Split input }
{
    byte == LINE_END
}
