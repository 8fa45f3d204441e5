//! Rows of tables: slots, and whatever else has a key.
ghost use Rattle.std.specs.Prelude.{◌≡◌};

/// A row of a table. It is found by its key.
pub trait Keyed: Sized + Drop {
    /// What a row is found by.
    type Key: Ord + Drop;

    ghost key: { Self → Self.Key };

    /// The row's key.
    fn key(&self) -> &Self::Key
        ensures { result.now ≡ key self.now };
}

/// A slot that isn't idle.
#[derive(Drop)]
pub struct Slot<K, H> {
    /// Whose slot it is.
    pub key: K,
    /// How many entries the journal had at the look.
    pub seen: u64,
    /// The moment of the look, in whole seconds from 1970.
    pub read_at: u64,
    /// What the slot holds since.
    pub held: H,
}

impl<K: Ord + Drop, H: Drop> Keyed for Slot<K, H> {
    type Key = K;

    ghost key = { λ slot. slot.key };

    fn key(&self) -> &K {
        &self.key
    }
}
