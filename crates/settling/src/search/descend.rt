//! The search below a start.

ghost use Rattle.std.specs.Prelude.{◌≡◌, ◌+◌, ◌≤◌, List, [], ◌∷◌, ◌++◌, length, MatchResult};
ghost use Rattle.costing.specs.Stacks.{room};
ghost use Rattle.draft.specs.Held.{entered_tones};
ghost use Rattle.settling.specs.Posed.{meant};
ghost use Rattle.settling.specs.Searching.{Went, Overspent};

use super::{Best, Laid, Quest, Search, Spent};
use costing::costing::Costing;
use draft::draft::MOST_TONES;
use measure::measure::Measure;

impl<M: Measure, C: Costing> Quest<'_, '_, '_, M, C> {
    /// Searches all that extends the start of the first `k` tones, whose cost is on top of the stack, in list order.
    ///
    /// A start that costs no less than the best so far is left at once. Every candidate that is looked at is one trial.
    pub(crate) fn descend(&self, search: &mut Search<C::Value>, k: usize) -> Result<(), Spent>
        requires height { length search.old.costs.values ≡ k + 1 }
        requires wide { 33 ≤ room search.old.costs }
        requires within_draft { k ≤ length (entered_tones self.now.draft.now) }
        requires within_allowance { search.old.trials ≤ self.now.allowance }
        ensures searched { (rest : List C.Value) (v : C.Value) → search.old.costs.values ≡ rest ++ (v ∷ []) → MatchResult result (λ _. Went (M.Measure.dist self.now.yardstick.now.measure.now) (meant C.Costing) self.now.draft.now self.now.allowance k v search.old search.new) (λ _. Overspent (M.Measure.dist self.now.yardstick.now.measure.now) (meant C.Costing) self.now.draft.now self.now.allowance k v search.old) }
    {
        let measure = self.yardstick.measure;
        let costing = self.yardstick.costing;
        let cost = search.costs.top().unwrap();
        // stays (rule): the project asks for the best cost as an Option, taken apart at each comparison of a start
        if let Some(best) = search.best {
            if costing.no_more(best.cost, cost) {
                return Ok(());
            }
        }
        let Some(candidates) = self.draft.candidates(k) else {
            // stays (speed): the laid tones by their place; a `map` over all 32 made a small settling 1.4 times as many instructions
            let mut sheet = [0; MOST_TONES];
            for (place, placed) in search.laid[..k].iter().enumerate() {
                sheet[place] = placed.number;
            }
            search.best = Some(Best { cost, sheet });
            return Ok(());
        };
        // stays (rule): candidates with their index, and in them the laid tones, left by continue at the first broken bound
        'candidates: for (number, ratio) in candidates.iter().enumerate() {
            if search.trials == self.allowance {
                return Err(Spent);
            }
            search.trials += 1;
            let mut sum = cost;
            for (earlier, laid) in search.laid[..k].iter().enumerate() {
                let apart = measure.distance(&laid.ratio, ratio);
                let Some(bound) = self.draft.bound_of(earlier, k) else {
                    continue 'candidates;
                };
                if apart > bound {
                    continue 'candidates;
                }
                sum = costing.joined(sum, costing.of(apart));
            }
            search.laid[k] = Laid {
                ratio: *ratio,
                // stays (no plainer): `as` of a number that is proved to fit; `try_from` would add a case that never is
                number: number as u8,
            };
            search.costs.push(sum).unwrap();
            self.descend(search, k + 1)?;
            search.costs.pop();
        }
        Ok(())
    }
}
