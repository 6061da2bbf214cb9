//! The faults of a line's text.

ghost use Rattle.std.specs.Prelude.{◌≡◌};
ghost use Rattle.command.specs.Faults.{text_refusal};

use refusal::{Layer, Refusal};

/// Why a line says nothing that can be done.
#[derive(Clone, Copy, Debug, PartialEq, Eq)]
pub enum TextFault {
    /// The line has more than 80 bytes.
    TooLong,
    /// The line does not begin with the word of a command.
    NoCommand,
    /// There are too many words or too few, or the spaces are not one between each two words.
    WrongWords,
    /// The word at this column lacks its form.
    NoForm { column: usize },
}

impl TextFault {
    /// The fault as it is told: its layer, number and column.
    pub fn refusal(self) -> Refusal
        ensures { result ≡ text_refusal self }
    {
        let (number, column) = match self {
            TextFault::TooLong => (2, 81),
            TextFault::NoCommand => (3, 1),
            TextFault::WrongWords => (4, 1),
            TextFault::NoForm { column } => (5, column),
        };
        Refusal {
            layer: Layer::Text,
            number,
            column,
        }
    }
}
