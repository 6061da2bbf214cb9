//! How a session follows its lines.

ghost use Rattle.std.specs.Prelude.{◌≡◌, []};
ghost use Rattle.draft.specs.Book.{Book};
ghost use Rattle.draft.specs.Held.{Holds};
ghost use Rattle.session.specs.Answers.{barlow};
ghost use Rattle.session.specs.Following.{Followed, HeardLine};
ghost use Rattle.session.specs.Obeying.{Obeyed};
ghost use Rattle.settling.specs.Costings.{total};
ghost use Rattle.settling.specs.Promise.{Settling};

use super::{ANSWER_ROOM, Session};
use crate::blame::told_at;
use crate::fault::SessionFault;
use crate::page::Page;
use command::command::Command;
use command::fault::TextFault;
use costing::total::Total;
use draft::draft::{Draft, MOST_TONES};
use measure::weighted::WeightedPrimes;
use refusal::Refusal;
use settling::fault::SearchFault;
use settling::settle::{STACK_PLACES, Settled};
use settling::step::Step;
use settling::yardstick::Yardstick;

impl Session {
    /// A session that has heard nothing.
    pub fn new() -> Session
        ensures followed { Followed result [] [] }
    {
        Session {
            draft: Draft::new(),
            sheet: [0; MOST_TONES],
            stack: [0; STACK_PLACES],
        }
    }

    /// Hears one line, without its byte 10, and writes the answer to it; gives how many bytes that are.
    ///
    /// Refuses a buffer of fewer than 1,280 bytes. What a line asks that cannot be done is no refusal here, but an answer.
    pub fn hear(&mut self, line: &[u8], answer: &mut [u8]) -> Result<usize, Refusal>
        ensures heard { HeardLine self.old self.new line.now answer.old answer.new result }
    {
        if answer.len() < ANSWER_ROOM {
            return Err(SessionFault::ShortBuffer.refusal(0));
        }
        let tones = self.draft.tones();
        let read = Command::read(line);
        let mut page = Page::over(answer);
        match (read, self.obey(read)) {
            (_, Ok(None)) => page.text(b"ok\n"),
            (_, Ok(Some(settled))) => page.scale(&self.draft, &self.sheet, settled),
            (Err(fault), Err(_)) => page.refusal(fault.refusal()),
            (Ok(command), Err(fault)) => {
                // stays (no plainer): by the promise a word that is not in the line has column 0; to unwrap would promise no more
                let column = told_at(command, fault, tones).unwrap_or(0);
                page.refusal(fault.refusal(column));
            }
        }
        Ok(page.end())
    }

    /// Takes the step that was read: enters something into the draft, or settles it, which gives a scale.
    fn obey(
        &mut self,
        read: Result<Command, TextFault>,
    ) -> Result<Option<Settled<u64>>, SessionFault>
        ensures obeyed { Obeyed read self.old self.new result }
    {
        match read?.step {
            Step::Enter { call } => {
                self.draft.put(call)?;
                Ok(None)
            }
            Step::Settle { allowance } => Ok(Some(self.settle(allowance)?)),
        }
    }

    /// Settles the draft by Barlow's measure and the total of the distances.
    fn settle(&mut self, allowance: u64) -> Result<Settled<u64>, SearchFault>
        ensures settles { (b : Book) → Holds self.old.draft b → Settling barlow total b allowance 33 result self.old.sheet self.new.sheet }
        ensures draft { self.new.draft ≡ self.old.draft }
    {
        let barlow = WeightedPrimes::barlow();
        let yardstick = Yardstick {
            measure: &barlow,
            costing: &Total,
        };
        yardstick.settle(&self.draft, allowance, &mut self.sheet, &mut self.stack)
    }
}
