//! Where in the line a fault is told.

ghost use Rattle.session.specs.Obeying.{ColumnOf, ToldAt};

use crate::fault::SessionFault;
use command::command::{Columns, Command};
use draft::call::Call;
use draft::fault::DraftFault;
use settling::fault::SearchFault;
use settling::step::Step;

/// The column where a fault of a command is told, where the draft has this many tones: that of the word at fault, or 1 where
/// it is the line as a whole.
#[tactic(auto, using(crate::proofs::Columns::first_column))]
pub(crate) fn told_at(command: Command, fault: SessionFault, tones: usize) -> Option<usize>
    ensures told { ToldAt command fault tones result }
{
    match (command.step, fault) {
        (Step::Enter { call }, SessionFault::Draft(fault)) => draft_column(
            command.columns,
            call,
            fault,
            tones,
        ),
        (_, SessionFault::Search(SearchFault::OutOfLimits)) => command.columns.first,
        _ => Some(1),
    }
}

/// The column where a fault of the draft is told: that of the ratio, the pitch or bound, the second tone, the leftmost tone
/// that is not there, the candidate, or the full tone; 1 where the draft has no room for a tone.
#[tactic(auto, using(crate::proofs::Columns::first_column))]
fn draft_column(columns: Columns, call: Call, fault: DraftFault, tones: usize) -> Option<usize>
    ensures column { ColumnOf columns call fault tones result }
{
    match (fault, call) {
        (DraftFault::OutOfLimits, Call::Bound { .. }) => columns.third,
        (DraftFault::NoTone, Call::Bound { tone, .. }) if tone < tones => columns.second,
        (DraftFault::Entry(_) | DraftFault::SameTone | DraftFault::NoCandidate, _) =>
            columns.second,
        (DraftFault::TonesFull, _) => Some(1),
        _ => columns.first,
    }
}
