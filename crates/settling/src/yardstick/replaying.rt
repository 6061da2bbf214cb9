//! A whole run: steps put one by one to a new draft.

ghost use Rattle.std.specs.Prelude.{List, length};
ghost use Rattle.draft.specs.Book.{new_book, Sound};
ghost use Rattle.ratio.specs.Parts.{unison};
ghost use Rattle.settling.specs.Graef.{InGraefsWords};
ghost use Rattle.settling.specs.Posed.{problem, meant};
ghost use Rattle.settling.specs.Run.{after, Stepped, Replayed};
ghost use Rattle.settling.specs.declared.step.Step.{Step};

use super::Yardstick;
use crate::settle::Sheet;
use crate::step::{Answer, Entry, Step};
use costing::costing::Costing;
use draft::draft::Draft;
use measure::measure::Measure;

impl<M: Measure, C: Costing> Yardstick<'_, M, C> {
    /// Puts one step to the draft.
    // stays (rule): settle and replay are public and keep their parameters; the sheet is a result, the stack scratch
    fn take_step(
        &self,
        draft: &mut Draft,
        step: Step,
        sheet: &mut Sheet,
        stack: &mut [C::Value],
    ) -> Answer<C::Value>
        ensures stepped { Stepped (M.Measure.dist self.now.measure.now) (meant C.Costing) (length stack.old) step draft.old draft.new result sheet.old sheet.new }
    {
        match step {
            Step::Enter { call } => Answer::Entered {
                told: draft.put(call),
            },
            Step::Settle { allowance } => Answer::Settled {
                told: self.settle(draft, allowance, sheet, stack),
            },
        }
    }

    /// Puts the steps one by one to a new draft, and records the answer to each and the sheet after it; gives the draft
    /// that they leave.
    ///
    /// It refuses nothing. If there are fewer places for entries than steps, it takes as many steps as there are places,
    /// and places beyond the last answer stay as they are. The sheet and the stack may hold anything.
    pub fn replay(
        &self,
        steps: &[Step],
        stack: &mut [C::Value],
        sheet: &mut Sheet,
        entries: &mut [Entry<C::Value>],
    ) -> Draft
        ensures replayed { Replayed (M.Measure.dist self.now.measure.now) (meant C.Costing) (length stack.old) steps.now entries.old entries.new sheet.old sheet.new result }
        ensures sound { (ss : List Step) → Sound (after new_book ss) }
        ensures in_graefs_words { (ss : List Step) → InGraefsWords (problem (M.Measure.dist self.now.measure.now) (after new_book ss)) unison }
    {
        let mut draft = Draft::new();
        let count = steps.len().min(entries.len());
        // stays (proof): entries by index, for after `steps.iter().zip(entries.iter_mut())` nothing is known of what they hold
        for (number, step) in steps[..count].iter().enumerate() {
            let answer = self.take_step(&mut draft, *step, sheet, stack);
            entries[number] = Entry {
                answer,
                sheet: *sheet,
            };
        }
        draft
    }
}
