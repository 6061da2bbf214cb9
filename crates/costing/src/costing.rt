//! What every costing of a whole scale promises.

ghost use Rattle.std.specs.Prelude.{◌≡◌, ℕ, Bool, true, ◌⊎◌};

/// What a whole scale costs, by the distances in it.
///
/// Its meaning is four things: `nil`, the value of no distances; `worth`, the value of a distance; `join`, two values as
/// one; and `within`, whether a value is no more than another. The functions answer these, refuse nothing and change
/// nothing.
///
/// Values join in any order and grouping, and `nil` adds nothing to a value. The comparison puts all values in one order,
/// in which only equal values stand level, and no value is more than its joining with another.
pub trait Costing {
    /// What costs are counted in.
    type Value: Copy;

    ghost nil: { Self.Value };

    ghost worth: { ℕ → Self.Value };

    ghost join: { Self.Value → Self.Value → Self.Value };

    ghost within: { Self.Value → Self.Value → Bool };

    /// The value of no distances.
    fn nothing(&self) -> Self::Value
        ensures { result ≡ nil };

    /// The value of one distance.
    fn of(&self, distance: u32) -> Self::Value
        ensures { result ≡ worth distance };

    /// Two values as one.
    fn joined(&self, a: Self::Value, b: Self::Value) -> Self::Value
        ensures { result ≡ join a b };

    /// Whether the first value is no more than the second.
    fn no_more(&self, a: Self::Value, b: Self::Value) -> bool
        ensures { result ≡ within a b };

    ghost associative: { (a b c : Self.Value) → join (join a b) c ≡ join a (join b c) };

    ghost commutative: { (a b : Self.Value) → join a b ≡ join b a };

    ghost neutral: { (a : Self.Value) → join nil a ≡ a };

    ghost reflexive: { (a : Self.Value) → within a a ≡ true };

    ghost transitive: { (a b c : Self.Value) → within a b ≡ true → within b c ≡ true → within a c ≡ true };

    ghost comparable: { (a b : Self.Value) → (within a b ≡ true) ⊎ (within b a ≡ true) };

    ghost antisymmetric: { (a b : Self.Value) → within a b ≡ true → within b a ≡ true → a ≡ b };

    ghost grows: { (a b : Self.Value) → within a (join a b) ≡ true };
}
