//! The items of the taken places.

ghost use Rattle.std.specs.Prelude.{◌≡◌, ◌<◌, ◌≤◌, [], ◌∷◌, ◌++◌, length, Decides, IfNone, MatchResult, remove, slice_get, slice_set};
ghost use Rattle.places.specs.Listed.{listed};

use crate::{Full, Places};

impl<T: Copy, const N: usize> Places<T, N> {
    /// An empty list, the places of which hold `blank` until they are taken.
    pub fn empty(blank: T) -> Self
        ensures { listed result ≡ [] }
    {
        Places {
            table: [blank; N],
            count: 0,
        }
    }

    /// The items, in order.
    pub fn as_slice(&self) -> &[T]
        ensures items { result.now ≡ listed self.now }
        ensures fits { length result.now ≤ N }
    {
        &self.table[..self.count]
    }

    /// How many items there are.
    pub fn len(&self) -> usize
        ensures count { result ≡ length (listed self.now) }
        ensures fits { result ≤ N }
    {
        self.as_slice().len()
    }

    /// Whether there is no item.
    pub fn is_empty(&self) -> bool
        ensures { Decides result (listed self.now ≡ []) }
    {
        self.as_slice().is_empty()
    }

    /// The item of a place, or `None` if it is not taken.
    pub fn get(&self, place: usize) -> Option<T>
        ensures { result ≡ slice_get (listed self.now) place }
    {
        self.as_slice().get(place).copied()
    }

    /// One item more, after the others; refused if every place is taken.
    pub fn push(&mut self, item: T) -> Result<(), Full>
        ensures cases { MatchResult result (λ _. (length (listed self.old) < N) × (listed self.new ≡ listed self.old ++ (item ∷ []))) (λ _. (length (listed self.old) ≡ N) × (self.new ≡ self.old)) }
    {
        if self.count == N {
            return Err(Full);
        }
        self.table[self.count] = item;
        self.count += 1;
        Ok(())
    }

    /// Puts an item in the place of another, which is returned, or `None` if the place is not taken.
    // stays (proof): lent as `&mut`, a place gets no generated proof: the borrow checker does not yet cover a part of a `[T; N]`
    pub fn replace(&mut self, place: usize, item: T) -> Option<T>
        ensures replaced { result ≡ slice_get (listed self.old) place }
        ensures listed { listed self.new ≡ slice_set (listed self.old) place item }
        ensures unchanged { IfNone result (self.new ≡ self.old) }
    {
        let replaced = self.get(place)?;
        self.table[place] = item;
        Some(replaced)
    }

    /// Takes an item out, and those after it move down by one; `None` if its place is not taken.
    pub fn remove(&mut self, place: usize) -> Option<T>
        ensures removed { result ≡ slice_get (listed self.old) place }
        ensures listed { listed self.new ≡ remove (listed self.old) place }
        ensures unchanged { IfNone result (self.new ≡ self.old) }
    {
        let removed = self.get(place)?;
        self.table.copy_within(place + 1..self.count, place);
        self.count -= 1;
        Some(removed)
    }

    /// Takes every item out.
    pub fn clear(&mut self)
        ensures { listed self.new ≡ [] }
    {
        self.count = 0;
    }
}
