//! The stack at the values of two costings.

ghost use Rattle.std.specs.Prelude.{◌≡◌, ◌<◌, length, MatchOption};

use super::{Full, Stack};
use crate::costing::Costing;
use crate::total::Total;
use crate::worst_then_total::WorstThenTotal;

/// The top after the value of one distance, and then its joining with that of another, were put on.
fn climbed<C: Costing>(
    costing: &C,
    slots: &mut [C::Value],
    first: u32,
    second: u32,
) -> Option<C::Value>
    ensures { MatchOption result (length slots.old < 2) (λ v. v ≡ C.Costing.join (C.Costing.worth first) (C.Costing.worth second)) }
{
    let mut stack = Stack::over(slots);
    let low = costing.of(first);
    stack.push(low).ok()?;
    let high = costing.joined(low, costing.of(second));
    stack.push(high).ok()?;
    stack.top()
}

#[test]
fn totals(rt: HostRuntime) {
    let mut slots = [0; 2];
    assert_eq!(rt; climbed(&Total, &mut slots, 3, 4), Some(7));
    let mut stack = Stack::over(&mut slots);
    assert_eq!(rt; stack.top(), None);
    assert_eq!(rt; stack.push(5), Ok(()));
    assert_eq!(rt; stack.push(6), Ok(()));
    assert_eq!(rt; stack.push(7), Err(Full));
    assert_eq!(rt; stack.pop(), Some(6));
    assert_eq!(rt; stack.height(), 1);
}

#[test]
fn pairs(rt: HostRuntime) {
    let mut slots = [(0, 0); 2];
    assert_eq!(rt; climbed(&WorstThenTotal, &mut slots, 3, 4), Some((4, 7)));
    let mut one = [(0, 0); 1];
    assert_eq!(rt; climbed(&WorstThenTotal, &mut one, 3, 4), None);
}
