//! The words of a line, each with its column.

ghost use Rattle.std.specs.Prelude.{◌≡◌, take, Decides};
ghost use Rattle.command.specs.Telling.{FormRead, Full, views};
ghost use Rattle.command.specs.Words.{words, placed};
ghost use Rattle.places.specs.Listed.{listed};

use crate::fault::TextFault;
use places::Places;

/// How many words of a line are told apart: one more than the longest command has.
const MOST_WORDS: usize = 5;

/// A word: its stretch of the line, and the column of its first byte, counted from 1.
#[derive(Clone, Copy)]
pub(crate) struct Word<'a> {
    pub(crate) bytes: &'a [u8],
    pub(crate) column: usize,
}

/// Lists the first words of the line, as many as are told apart.
// stays (speed): lent, since a list that is returned is copied twice: 12 million empty lines took 0.92 s, and take 0.71
pub(crate) fn first_words<'a>(line: &'a [u8], list: &mut Places<Word<'a>, MOST_WORDS>)
    ensures { views (listed list.new) ≡ take 5 (placed 1 (words line.now)) }
{
    list.clear();
    let mut column = 1;
    for bytes in line.split(|byte| *byte == b' ') {
        if list.push(Word { bytes, column }).is_err() {
            break;
        }
        column += bytes.len() + 1;
    }
}

/// Whether each of the words has a byte, as it has if no space stands beside another or at the end.
pub(crate) fn full(words: &[Word<'_>]) -> bool
    ensures { Decides result (Full words.now) }
{
    words.iter().all(|word| !word.bytes.is_empty())
}

impl Word<'_> {
    /// What a reader of its form reads the word as.
    pub(crate) fn read<T, F: FnOnce(&[u8]) -> Option<T>>(self, reader: F) -> Result<T, TextFault>
        requires { F.IsAlwaysCallable reader }
        ensures { FormRead (F.post reader self.entry.bytes) self.entry.column result }
    {
        reader(self.bytes).ok_or(TextFault::NoForm {
            column: self.column,
        })
    }
}
