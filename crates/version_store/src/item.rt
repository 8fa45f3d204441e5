//! What a store keeps.
ghost use Rattle.std.specs.Prelude.{◌≡◌, Bool};
ghost use Rattle.std.specs.Cmp.{IsEquivalence};
ghost use Rattle.version_store.specs.declared.item.Stamp.{Stamp};
ghost use Rattle.std.specs.declared.cmp.Ordering.{Ordering};
ghost use Rattle.version_store.specs.Laws.{ChangesStampAlone, IsSameButStamp, IsSpan, KeepsKindsTogether};

use std::cmp::Ordering;

/// What the store itself says of an object that stands.
#[derive(Clone, Copy, Debug, PartialEq, Eq)]
pub struct Stamp {
    /// The version that put the object as it is: a position in the journal, counted from 1.
    pub version: u64,
    /// How many specs the object has had since it was made: 1 at first.
    pub generation: u64,
    /// The version that made the object. It tells the object from later ones of its key.
    pub uid: u64,
    /// The moment at which the object was made, in whole seconds.
    pub created: u64,
}

/// An object of a store: it has a key, a stamp, a spec and other parts.
pub trait Item: Sized + Drop {
    /// The kinds of objects. They are ordered, so that the keys of a kind can be searched for.
    type Kind: Copy + Ord + Drop;

    /// What an object is found by. No two objects that stand have one key.
    type Key: Ord + Drop;

    /// What a reconciler works on.
    type Name: Drop;

    /// Who makes a write.
    type Actor: Drop;

    ghost key: { Self → Self.Key };

    ghost kind_of: { Self.Key → Self.Kind };

    ghost stamp: { Self → Stamp };

    ghost stamped: { Self → Stamp → Self };

    ghost same_spec: { Self → Self → Bool };

    ghost same: { Self → Self → Bool };

    ghost guards: { Self → Bool };

    /// The object's key.
    fn key(&self) -> &Self::Key
        ensures { result.now ≡ key self.now };

    /// The kind of a key.
    fn kind_of(it: &Self::Key) -> Self::Kind
        ensures { result ≡ kind_of it.now };

    /// The object's stamp.
    fn stamp(&self) -> Stamp
        ensures { result ≡ stamp self.now };

    /// Gives the object a stamp.
    fn set_stamp(&mut self, to: Stamp)
        ensures { self.new ≡ stamped self.old to };

    /// Whether two objects have the same spec. The generation counts specs.
    fn same_spec(&self, other: &Self) -> bool
        ensures { result ≡ same_spec self.now other.now };

    /// Whether two objects are the same but for their stamps.
    fn same(&self, other: &Self) -> bool
        ensures { result ≡ same self.now other.now };

    /// Whether the object guards: where its spec changes, guarded plans that were made before are stale.
    fn guards(&self) -> bool
        ensures { result ≡ guards self.now };

    /// To give a stamp changes the stamp alone.
    ghost stamp_alone: { ChangesStampAlone key stamp stamped same_spec guards };

    /// To have the same spec is an equivalence.
    ghost spec_equivalence: { IsEquivalence same_spec };

    /// To be the same looks at all but the stamps.
    ghost same_but_stamp: { IsSameButStamp key stamped same };

    /// The keys of a kind stand next to each other, and the kinds in their order.
    ghost kinds_together: { KeepsKindsTogether Self.Key.cmp kind_of Self.Kind.cmp };
}

/// What stands for a key in a search, as its borrowed parts, so that a look-up needs no memory for a key.
pub trait SearchKey<O: Item> {
    ghost sought: { Self → O.Key };

    /// How a key compares to the one that is sought.
    fn compare(&self, key: &O::Key) -> Ordering
        ensures { result ≡ O.Key.cmp key.now (sought self.now) };
}

/// Keys that stand next to each other in the order, told by borrowed parts: a walk over them takes no memory.
pub trait Span<O: Item> {
    ghost side: { Self → O.Key → Ordering };

    /// Whether the key is before the span (`Less`), in it (`Equal`) or behind it (`Greater`).
    fn side(&self, key: &O::Key) -> Ordering
        ensures { result ≡ side self.now key.now };

    /// The keys of the span stand next to each other.
    ghost together: { (span : Self) → IsSpan O.Key.cmp (side span) };
}
