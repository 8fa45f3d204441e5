//! The table: rows in order of key.
ghost use Rattle.std.specs.Prelude.{◌≡◌, [], IsSome, IfSome, OnOk, OnErr};
ghost use Rattle.std.specs.Option.{option_copied};
ghost use Rattle.version_store.specs.State.{find, put, without};
ghost use Rattle.version_store.specs.Index.{AreInOrder};

use crate::rows::{Keyed, Slot};
use crate::search::search;
use std::alloc::{AllocError, Global};
use std::marker::Model;

/// Rows in order of key, at most one of each key. Contracts see them as a list.
#[derive(Drop)]
pub struct SlotTable<R: Keyed> {
    rows: Vec<R>,
}

impl<R: Keyed> Model for SlotTable<R> {
    ghost use Rattle.std.specs.Prelude.{List};
    ghost use Rattle.version_store.specs.Index.{AreInOrder};

    ghost Value = { List R };

    ghost view = { λ t. t.rows.items };

    ghost invariant = { λ t. AreInOrder R.key R.Key.cmp t.rows.items };
}

impl<R: Keyed> SlotTable<R> {
    /// A table with no row.
    pub fn new(alloc: Global) -> SlotTable<R>
        ensures { result ≡ [] }
    {
        SlotTable {
            rows: Vec::new(alloc),
        }
    }

    /// The rows, in order of key.
    pub fn rows(&self) -> &[R]
        ensures all { result.now ≡ self.now }
        ensures ordered { AreInOrder R.key R.Key.cmp self.now }
    {
        &self.rows
    }

    /// The row of the key.
    pub fn find(&self, key: &R::Key) -> Option<&R>
        ensures { option_copied result ≡ find R.key R.Key.cmp key.now self.now }
    {
        match search(&self.rows, key) {
            Ok(place) => Some(&self.rows[place]),
            Err(_) => None,
        }
    }

    /// Puts the row in, in place of the row of its key.
    pub fn hold(&mut self, row: R) -> Result<(), AllocError>
        ensures ok { OnOk result (self.new ≡ put R.key R.Key.cmp row self.old) }
        ensures err { OnErr result (self.new ≡ self.old) }
    {
        match search(&self.rows, row.key()) {
            Ok(place) => self.rows[place] = row,
            Err(place) => self.rows.insert(place, row)?,
        }
        Ok(())
    }

    /// Takes the row of the key out.
    pub fn take(&mut self, key: &R::Key) -> Option<R>
        ensures taken { result ≡ find R.key R.Key.cmp key.now self.old }
        ensures rest { self.new ≡ without R.key R.Key.cmp key.now self.old }
    {
        match search(&self.rows, key) {
            Ok(place) => Some(self.rows.remove(place)),
            Err(_) => None,
        }
    }

    /// Drops the row of the key: an idle slot has none. The row is dropped here, so that no caller pays for a proof of that.
    pub fn idle(&mut self, key: &R::Key)
        ensures { self.new ≡ without R.key R.Key.cmp key.now self.old }
    {
        let _row = self.take(key);
    }
}

impl<K: Ord + Drop, H: Drop> SlotTable<Slot<K, H>> {
    /// Lets a slot that isn't idle hold something else, from the same look.
    pub fn set_held(&mut self, key: &K, held: H)
        requires { IsSome (find (λ slot. slot.key) K.cmp key.now self.old) }
        ensures { IfSome
            (find (λ slot. slot.key) K.cmp key.now self.old)
            (λ slot. self.new ≡ put (λ slot. slot.key) K.cmp (record slot { held = held }) self.old) }
    {
        match search(&self.rows, key) {
            Ok(place) => self.rows[place].held = held,
            Err(_) => unreachable!(),
        }
    }
}
