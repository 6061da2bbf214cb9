//! A list in a fixed table of places.
#![tactic(auto)]

ghost use Rattle.std.specs.Prelude.{◌≡◌, ◌≤◌, length};

use std::alloc::AllocError;

mod listing;

/// A list that lies in a fixed table of `N` places, of which the first `count` are taken.
// stays (rule): arrayvec's ArrayVec is not Copy, which the public types that hold a list here are
// stays (no plainer): clauses say `listed`, no Model: Copy needs an inverse, and a view that forgets the untaken places has none
pub struct Places<T: Copy, const N: usize> {
    pub(crate) table: [T; N],
    pub(crate) count: usize,
    ghost all: { length table ≡ N },
    ghost few: { count ≤ N },
}

impl<T: Copy, const N: usize> Copy for Places<T, N> {}

// stays (proof): a derive of Clone is refused over ghost fields in a generic type
impl<T: Copy, const N: usize> Clone for Places<T, N> {
    ghost use Rattle.std.specs.Prelude.{⊤};

    ghost is_clone = { λ places copy. copy ≡ places };

    ghost is_infallible = { λ _. ⊤ };

    fn clone(&self) -> Result<Self, AllocError> {
        Ok(*self)
    }
}

/// Every place is taken.
#[derive(Clone, Copy, Debug, PartialEq, Eq)]
pub struct Full;

#[cfg(test)]
mod tests {
    use super::*;
    use std::test::Fail;

    #[test]
    fn listing(rt: HostRuntime) -> Result<(), Fail> {
        let mut places = Places::<u32, 3>::empty(0);
        assert!(rt; places.is_empty());
        assert!(rt; places.push(5).is_ok());
        assert!(rt; places.push(6).is_ok());
        assert!(rt; places.push(7).is_ok());
        assert!(rt; places.push(8).is_err());
        assert_eq!(rt; places.remove(3), None);
        assert_eq!(rt; places.remove(0), Some(5));
        assert_eq!(rt; places.replace(1, 9), Some(7));
        assert_eq!(rt; places.replace(2, 9), None);
        assert_eq!(rt; places.get(0), Some(6));
        assert_eq!(rt; places.get(2), None);
        assert_eq!(rt; places.as_slice(), &[6, 9][..]);
        let copy = places;
        places.clear();
        assert_eq!(rt; places.len(), 0);
        assert_eq!(rt; copy.len(), 2);
        Ok(())
    }
}
