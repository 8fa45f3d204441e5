//! Writes, and what comes of them.
use crate::item::Item;

/// What a plan expects to stand under its key.
#[derive(Clone, Copy, Debug, PartialEq, Eq)]
pub enum Expect {
    /// Nothing stands.
    Absent,
    /// An object of this version stands.
    At(u64),
}

/// What a write does to its key.
#[derive(Drop)]
pub enum Change<O> {
    /// Puts the object. Its stamp does not count.
    Put(O),
    /// Removes the object that stands.
    Remove,
}

/// A change to one key, and the condition on which it is made.
#[derive(Drop)]
pub struct Plan<O: Item> {
    /// The key that is changed.
    pub key: O::Key,
    /// What must stand under the key.
    pub expect: Expect,
    /// Whether the plan is stale once a guarding object was made, or its spec changed, since it was seen.
    pub guarded: bool,
    /// What is done to the key.
    pub change: Change<O>,
}

/// A plan, by whom it is applied, and what was known when it was made.
#[derive(Drop)]
pub struct Write<O: Item> {
    /// The plan.
    pub plan: Plan<O>,
    /// Who applies it.
    pub actor: O::Actor,
    /// The version of the store that the plan was made for.
    pub seen: u64,
    /// The moment that the plan was made for.
    pub read_at: u64,
    /// The moment of the write. Moments are whole seconds.
    pub moment: u64,
}

/// What came of a write.
#[derive(Clone, Copy, Debug, PartialEq, Eq)]
pub enum Applied {
    /// An entry was added, at this version.
    Done { version: u64 },
    /// The object put is the same as the one that stands, of this version.
    Same { version: u64 },
    /// Another version stands, or a guard changed at this version, later than was seen.
    Stale { newer: u64 },
    /// An object of this version stands, and none was expected.
    Exists { version: u64 },
    /// No object stands, and one was expected. The key's last entry has this version, or it is 0 where it has none.
    Absent { last: u64 },
}

/// What was written at one version.
#[derive(Drop)]
pub struct Entry<O: Item> {
    /// The key that was changed.
    pub key: O::Key,
    /// The object that was put, with its stamp, or nothing where the key's object was removed.
    pub object: Option<O>,
    /// Who wrote.
    pub actor: O::Actor,
    /// The version of the store that the plan was made for.
    pub seen: u64,
    /// The moment that the plan was made for.
    pub read_at: u64,
    /// The moment of the write.
    pub moment: u64,
}
