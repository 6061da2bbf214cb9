//! A stack of values over slots that the caller lends.

use std::marker::Model;

mod moves;
mod reads;
#[cfg(test)]
mod tests;

/// A stack over the caller's slots; it holds as many values as there are slots, and no more.
///
/// A contract sees the values held, the bottom first, and how many slots are free.
// stays (rule): one stack over the slots that the caller lends, since the call for one line has no heap
#[derive(Drop)]
pub struct Stack<'a, V: Copy> {
    slots: &'a mut [V],
    height: usize,
}

impl<'a, V: Copy> Model for Stack<'a, V> {
    ghost use Rattle.std.specs.Prelude.{◌-◌, ◌≤◌, length, take};
    ghost use Rattle.costing.specs.Stacks.{Held};

    ghost Value = { Held V };

    ghost view = { λ s. record { values = take s.height s.slots.now; free = length s.slots.now - s.height } };

    ghost invariant = { λ s. s.height ≤ length s.slots.now };
}

/// No slot of a stack is free.
// stays (no plainer): `places` has such a unit struct for its lists; to share one would tie this crate to that for a word
#[derive(Clone, Copy, Debug, PartialEq, Eq)]
pub struct Full;
