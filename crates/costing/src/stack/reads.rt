//! What is read of a stack.

ghost use Rattle.std.specs.Prelude.{◌≡◌, List, length};
ghost use Rattle.costing.specs.Stacks.{TakenOff};

use super::Stack;

impl<'a, V: Copy> Stack<'a, V> {
    /// The top value, or `None` where the stack holds nothing.
    pub fn top(&self) -> Option<V>
        ensures { (rest : List V) × TakenOff result self.now.values rest }
    {
        self.slots[..self.height].last().copied()
    }

    /// How many values it holds.
    pub fn height(&self) -> usize
        ensures { result ≡ length self.now.values }
    {
        self.height
    }
}
