//! The command that a line says.

ghost use Rattle.std.specs.Prelude.{◌≡◌, [], ◌∷◌, IfOk};
ghost use Rattle.command.specs.Reading.{Named, Read, step_read, Placed};
ghost use Rattle.command.specs.Telling.{Tell, columns_of};
ghost use Rattle.command.specs.Words.{CutAtSpaces};

use crate::fault::TextFault;
use crate::form::{read_cents, read_number, read_place};
use crate::word::{Word, first_words, full};
use draft::call::Call;
use lines::line::LONGEST_LINE;
use places::Places;
use ratio::word::read_parts;
use settling::step::Step;

/// The commands of a session.
#[derive(Clone, Copy, Debug, PartialEq, Eq)]
pub enum Verb {
    Tone,
    Try,
    Strike,
    Bound,
    Level,
    Settle,
}

/// The columns of the first, second and third word behind the name of a command, each if there is such a word.
#[derive(Clone, Copy, Debug, PartialEq, Eq)]
pub struct Columns {
    pub first: Option<usize>,
    pub second: Option<usize>,
    pub third: Option<usize>,
}

/// A command as a line says it: the step to take, and where its words stand.
#[derive(Clone, Copy)]
pub struct Command {
    pub step: Step,
    pub columns: Columns,
}

impl TryFrom<&[u8]> for Verb {
    type Error = TextFault;

    ghost try_from_gives = { λ name r. Named name.now r };

    /// The command that the word names.
    fn try_from(name: &[u8]) -> Result<Verb, TextFault> {
        match name {
            b"tone" => Ok(Verb::Tone),
            b"try" => Ok(Verb::Try),
            b"strike" => Ok(Verb::Strike),
            b"bound" => Ok(Verb::Bound),
            b"level" => Ok(Verb::Level),
            b"settle" => Ok(Verb::Settle),
            _ => Err(TextFault::NoCommand),
        }
    }
}

impl Verb {
    /// The step that the command says with these words behind it, each of which has a byte.
    #[tactic(auto, using(crate::proofs::Telling::wrong_count))]
    fn step(self, words: &[Word<'_>]) -> Result<Step, TextFault>
        ensures { Tell self words.now result }
    {
        let call = match (self, words) {
            (Verb::Tone, [pitch]) => Call::Tone {
                pitch: pitch.read(read_cents)?,
            },
            (Verb::Try, [tone, ratio]) => {
                let tone = tone.read(read_place)?;
                let (numerator, denominator) = ratio.read(read_parts)?;
                Call::Try {
                    tone,
                    numerator,
                    denominator,
                }
            }
            (Verb::Strike, [tone, candidate]) => Call::Strike {
                tone: tone.read(read_place)?,
                candidate: candidate.read(read_place)?,
            },
            (Verb::Bound, [tone, other, bound]) => Call::Bound {
                tone: tone.read(read_place)?,
                other: other.read(read_place)?,
                bound: bound.read(read_number)?,
            },
            (Verb::Level, [bound]) => Call::Level {
                bound: bound.read(read_number)?,
            },
            (Verb::Settle, [allowance]) => {
                return Ok(Step::Settle {
                    allowance: allowance.read(read_number)?,
                });
            }
            _ => return Err(TextFault::WrongWords),
        };
        Ok(Step::Enter { call })
    }
}

impl Columns {
    /// The columns of these words behind a command's name.
    fn of(words: &[Word<'_>]) -> Columns
        ensures { result ≡ columns_of words.now }
    {
        let column = |place: usize| words.get(place).map(|word| word.column);
        Columns {
            first: column(0),
            second: column(1),
            third: column(2),
        }
    }
}

impl Command {
    /// The command that the line says.
    ///
    /// Refuses a line over 80 bytes, then one that begins with no command, then a wrong number of words or wrong spaces, then
    /// the leftmost word that lacks its form.
    pub fn read(line: &[u8]) -> Result<Command, TextFault>
        ensures read { Read line.now (step_read result) }
        ensures placed { IfOk result (λ c. Placed line.now c.columns) }
        ensures cut { CutAtSpaces line.now }
    {
        if line.len() > LONGEST_LINE {
            return Err(TextFault::TooLong);
        }
        let mut words = Places::empty(Word {
            bytes: &[],
            column: 0,
        });
        first_words(line, &mut words);
        let [name, behind @ ..] = words.as_slice() else {
            return Err(TextFault::NoCommand);
        };
        let verb = Verb::try_from(name.bytes)?;
        if !full(behind) {
            return Err(TextFault::WrongWords);
        }
        Ok(Command {
            step: verb.step(behind)?,
            columns: Columns::of(behind),
        })
    }
}
