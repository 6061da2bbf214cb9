//! How a session follows its input.

ghost use Rattle.std.specs.Prelude.{ℕ, List, [], ◌∷◌, ◌++◌, take};
ghost use Rattle.session.specs.Transcribing.{Finished, LineAnswered, Transcribed, Wrote};

use super::Transcript;
use crate::session::{ANSWER_ROOM, Session};
use lines::line::Line;
use lines::split::ends_line;

/// The buffer for one answer, which has room for the longest.
pub type Answer = [u8; ANSWER_ROOM];

impl Transcript {
    /// A session that has heard nothing of its input.
    pub fn new() -> Transcript
        ensures transcribed { Transcribed result [] [] }
    {
        Transcript {
            session: Session::new(),
            line: Line::new(),
        }
    }

    /// Hears one byte more. If it ends a line, the answer to that line is written; gives how many bytes that are, which is 0
    /// if it ends none.
    pub fn hear(&mut self, byte: u8, answer: &mut Answer) -> usize
        ensures transcribed { (past said : List ℕ) → Transcribed self.old past said → Transcribed self.new (past ++ (byte ∷ [])) (said ++ take result answer.new) }
        ensures wrote { Wrote answer.old answer.new result }
    {
        // stays (speed): Line::hear hands out a copy; entries must stay as fast: 100,000 are 68 million instructions, not 134
        if ends_line(byte) {
            let end = self.answer(answer);
            self.line.clear();
            end
        } else {
            self.line.push(byte);
            // stays (no plainer): 0 is how many bytes are written, and the clauses take so many of the buffer
            0
        }
    }

    /// The input is at its end. If a last line lacks its byte 10, the answer to it is written; gives how many bytes that are.
    pub fn finish(&mut self, answer: &mut Answer) -> usize
        ensures finished { (past said : List ℕ) → Transcribed self.old past said → Finished self.new past (said ++ take result answer.new) }
        ensures wrote { Wrote answer.old answer.new result }
    {
        if self.line.is_empty() {
            return 0;
        }
        let end = self.answer(answer);
        self.line.clear();
        end
    }

    /// Answers the line that was read.
    fn answer(&mut self, answer: &mut Answer) -> usize
        ensures answered { LineAnswered self.old self.new answer.old answer.new result }
    {
        self.session.hear(self.line.bytes(), answer).unwrap()
    }
}
