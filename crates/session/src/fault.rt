//! The faults of a line, from whichever layer they come.

ghost use Rattle.std.specs.Prelude.{◌≡◌};
ghost use Rattle.session.specs.Faults.{session_refusal};
ghost use Rattle.session.specs.declared.fault.SessionFault.TheVariants.{Text as TextFaultOf, Draft as DraftFaultOf, Search as SearchFaultOf};

use command::fault::TextFault;
use draft::fault::DraftFault;
use refusal::{Layer, Refusal};
use settling::fault::SearchFault;

/// Why a line is refused, with the fault of the layer that found it whole inside.
#[derive(Clone, Copy, Debug, PartialEq, Eq)]
pub enum SessionFault {
    /// The buffer for the answer has fewer than 1,280 bytes.
    ShortBuffer,
    /// The text of the line says nothing that can be done.
    Text(TextFault),
    /// The draft refuses what is to be entered.
    Draft(DraftFault),
    /// The settling gives no scale.
    Search(SearchFault),
}

impl From<TextFault> for SessionFault {
    ghost from_gives = { λ fault r. r ≡ TextFaultOf fault };

    fn from(fault: TextFault) -> SessionFault {
        SessionFault::Text(fault)
    }
}

impl From<DraftFault> for SessionFault {
    ghost from_gives = { λ fault r. r ≡ DraftFaultOf fault };

    fn from(fault: DraftFault) -> SessionFault {
        SessionFault::Draft(fault)
    }
}

impl From<SearchFault> for SessionFault {
    ghost from_gives = { λ fault r. r ≡ SearchFaultOf fault };

    fn from(fault: SearchFault) -> SessionFault {
        SessionFault::Search(fault)
    }
}

impl SessionFault {
    /// The fault as it is told, where what the draft or the search refuses stands at this column.
    pub fn refusal(self, column: usize) -> Refusal
        ensures { result ≡ session_refusal self column }
    {
        match self {
            SessionFault::ShortBuffer => Refusal {
                layer: Layer::Text,
                number: 1,
                column: 0,
            },
            SessionFault::Text(fault) => fault.refusal(),
            SessionFault::Draft(fault) => fault.refusal(column),
            SessionFault::Search(fault) => fault.refusal(column),
        }
    }
}
