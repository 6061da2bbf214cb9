//! What the bench answers where it refuses: the layer that found the fault, its number, and the column.
#![tactic(auto)]

ghost use Rattle.std.specs.Prelude.{◌≡◌, Some};
ghost use Rattle.refusal.specs.Texts.{layer_word, refusal_line};

use std::fmt;

/// The layer of the bench that found a fault.
#[derive(Clone, Copy, Debug, PartialEq, Eq)]
pub enum Layer {
    Text,
    Ratio,
    Draft,
    Search,
}

impl Layer {
    /// The word by which the layer is told.
    pub fn word(self) -> &'static str
        ensures { result.now ≡ layer_word self }
    {
        match self {
            Layer::Text => "text",
            Layer::Ratio => "ratio",
            Layer::Draft => "draft",
            Layer::Search => "search",
        }
    }
}

impl fmt::Display for Layer {
    ghost output = { λ layer. Some (layer_word layer) };

    fn fmt<W: fmt::Write>(&self, f: &mut fmt::Formatter<W>) -> fmt::Result {
        f.write_str(self.word())
    }
}

/// A fault as it is told: its layer, its number, and the column of the line where it lies.
///
/// Columns count bytes from 1; a call that has no line gives column 0.
// stays (rule): a refusal is told as layer, number and column, and column 0 is what a call without a line tells
#[derive(Clone, Copy, Debug, PartialEq, Eq)]
pub struct Refusal {
    pub layer: Layer,
    pub number: u8,
    pub column: usize,
}

impl fmt::Display for Refusal {
    ghost output = { λ refusal. Some (refusal_line refusal) };

    fn fmt<W: fmt::Write>(&self, f: &mut fmt::Formatter<W>) -> fmt::Result {
        let Refusal {
            layer,
            number,
            column,
        } = self;
        write!(f, "no {layer} {number} {column}")
    }
}
