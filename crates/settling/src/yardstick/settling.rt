//! The call that settles a draft.

ghost use Rattle.std.specs.Prelude.{length};
ghost use Rattle.draft.specs.Book.{Book};
ghost use Rattle.draft.specs.Held.{Holds};
ghost use Rattle.settling.specs.Posed.{meant};
ghost use Rattle.settling.specs.Promise.{Settling};

use super::Yardstick;
use crate::fault::SearchFault;
use crate::search::{Laid, Quest, Search};
use crate::settle::{LARGEST_ALLOWANCE, STACK_PLACES, Settled, Sheet};
use costing::costing::Costing;
use costing::stack::Stack;
use draft::draft::{Draft, MOST_TONES};
use measure::measure::Measure;
use ratio::ratio::Ratio;

impl<M: Measure, C: Costing> Yardstick<'_, M, C> {
    /// The best scale of the draft: one candidate for each tone that keeps all bounds and costs least; of equals the first
    /// in list order. The sheet's first places then hold the candidate numbers.
    ///
    /// Refuses an allowance over 1,000,000,000, then a stack of fewer than 33 places, then a draft without tones, then a
    /// search that takes more trials than are allowed, then a draft of which every choice breaks some bound. A refusal
    /// leaves the sheet as it was. What remains on the stack is of no account.
    pub fn settle(
        &self,
        draft: &Draft,
        allowance: u64,
        sheet: &mut Sheet,
        stack: &mut [C::Value],
    ) -> Result<Settled<C::Value>, SearchFault>
        ensures settles { (b : Book) → Holds draft.now b → Settling (M.Measure.dist self.now.measure.now) (meant C.Costing) b allowance (length stack.old) result sheet.old sheet.new }
    {
        if allowance > LARGEST_ALLOWANCE {
            return Err(SearchFault::OutOfLimits);
        }
        if stack.len() < STACK_PLACES {
            return Err(SearchFault::ShortStack);
        }
        let tones = draft.tones();
        if tones == 0 {
            return Err(SearchFault::NoTone);
        }
        let unison = Laid {
            ratio: Ratio::unison(),
            number: 0,
        };
        let mut search = Search {
            laid: [unison; MOST_TONES],
            costs: Stack::over(stack),
            best: None,
            trials: 0,
        };
        search.costs.push(self.costing.nothing()).unwrap();
        let quest = Quest {
            yardstick: self,
            draft,
            allowance,
        };
        quest.descend(&mut search, 0)?;
        let trials = search.trials;
        let best = search.best.ok_or(SearchFault::NoScale { trials })?;
        sheet[..tones].copy_from_slice(&best.sheet[..tones]);
        Ok(Settled {
            cost: best.cost,
            trials,
        })
    }
}
