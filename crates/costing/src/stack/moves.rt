//! What is done with a stack.

ghost use Rattle.std.specs.Prelude.{◌≡◌, [], length};
ghost use Rattle.costing.specs.Stacks.{room, PutOn, TakenOff};

use super::{Full, Stack};

impl<'a, V: Copy> Stack<'a, V> {
    /// A stack over these slots that holds nothing yet, whatever stands in the slots.
    pub fn over(slots: &'a mut [V]) -> Stack<'a, V>
        ensures empty { result.values ≡ [] }
        ensures size { room result ≡ length slots.old }
    {
        Stack { slots, height: 0 }
    }

    /// Puts a value on top; where the stack is full it is refused, and nothing changes.
    pub fn push(&mut self, value: V) -> Result<(), Full>
        ensures put { PutOn result (room self.old) value self.old.values self.new.values }
        ensures size { room self.new ≡ room self.old }
    {
        if self.height == self.slots.len() {
            return Err(Full);
        }
        self.slots[self.height] = value;
        self.height += 1;
        Ok(())
    }

    /// Takes the top value off; where the stack holds nothing it answers `None`, and nothing changes.
    pub fn pop(&mut self) -> Option<V>
        ensures taken { TakenOff result self.old.values self.new.values }
        ensures size { room self.new ≡ room self.old }
    {
        self.height = self.height.checked_sub(1)?;
        Some(self.slots[self.height])
    }
}
