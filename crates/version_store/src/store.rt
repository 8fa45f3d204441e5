//! The store: a journal with an index beside it.
ghost use Rattle.std.specs.Prelude.{◌≡◌, ◌+◌, ◌-◌, ◌<◌, ◌≤◌, ◌^◌, [], length, slice_get, OnOk, OnErr, IfOk};
ghost use Rattle.std.specs.Option.{option_copied};
ghost use Rattle.version_store.specs.State.{state, replaced_at, find, of_kind, in_span, behind, versions_of, Grows};
ghost use Rattle.version_store.specs.Journal.{last_version, entry_at_version, changes, stamp_after, AreStamped};
ghost use Rattle.version_store.specs.Apply.{answer_to, entries_after, spare_after, PutsItsKey, IsNoRemovalOfNothing};

use crate::cut::{Behind, OfKind};
use crate::index::WholeKey;
use crate::item::{Item, SearchKey, Span, Stamp};
use crate::walk::Walk;
use crate::write::{Applied, Entry, Write};
use crate::{decide, index};
use std::alloc::{AllocError, Global};
use std::marker::Model;

/// The objects that stand, by all that was written.
///
/// Contracts see it as its journal, a list of entries, and as a number `spare`: for how many more entries there is
/// memory. The state after some entries is the list of the objects that stand, in order of key.
#[derive(Drop)]
pub struct Store<O: Item> {
    entries: Vec<Entry<O>>,
    // The version of the last entry of every key that ever stood, in order of key.
    lasts: Vec<u64>,
    // The versions of the objects that stand, in order of key.
    present: Vec<u64>,
    // For each entry the version of the entry before it on its key, or 0.
    priors: Vec<u64>,
    // The version of the last entry that made a guarding object or changed its spec, or 0.
    newest_guard: u64,
    spare: usize,
}

impl<O: Item> Model for Store<O> {
    ghost use Rattle.version_store.specs.declared.write.Entry.{Entry};
    ghost use Rattle.version_store.specs.Journal.{StoreView};
    ghost use Rattle.version_store.specs.Index.{IsIndexed};

    ghost Value = { StoreView (Entry O O.Kind O.Key O.Name O.Actor) };

    ghost view = { λ s. record { entries = s.entries.items; spare = s.spare } };

    ghost invariant = { λ s. IsIndexed O.Item O.Key.cmp s.entries s.lasts s.present s.priors s.newest_guard s.spare };
}

impl<O: Item> Store<O> {
    /// A store in which nothing was written.
    pub fn new(alloc: Global) -> Store<O>
        ensures entries { result.entries ≡ [] }
        ensures spare { result.spare ≡ 0 }
    {
        Store {
            entries: Vec::new(alloc),
            lasts: Vec::new(alloc),
            present: Vec::new(alloc),
            priors: Vec::new(alloc),
            newest_guard: 0,
            spare: 0,
        }
    }

    /// The number of entries. Each entry puts an object of its key, with the stamp that was due to it.
    pub fn version(&self) -> u64
        ensures count { result ≡ length self.now.entries }
        ensures stamped { AreStamped O.Item O.Key.cmp self.now.entries }
    {
        self.entries.len() as u64
    }

    /// The journal.
    pub fn entries(&self) -> &[Entry<O>]
        ensures { result.now ≡ self.now.entries }
    {
        &self.entries
    }

    /// The entry of a version.
    pub fn entry(&self, version: u64) -> Option<&Entry<O>>
        ensures { option_copied result ≡ entry_at_version self.now.entries version }
    {
        if version == 0 {
            return None;
        }
        self.entries.get(version as usize - 1)
    }

    /// The object that the entry at a place, counted from 0, replaced or removed: the one that stood under the entry's key
    /// before it. It takes no search.
    pub fn replaced(&self, place: usize) -> Option<&O>
        requires { place < length self.now.entries }
        ensures { option_copied result ≡ replaced_at O.key O.Key.cmp self.now.entries place }
    {
        self.entry(self.priors[place])?.object.as_ref()
    }

    /// The object of the key, if one stands.
    pub fn get(&self, key: &O::Key) -> Option<&O>
        ensures { option_copied result ≡ find O.key O.Key.cmp key.now (state O.key O.Key.cmp self.now.entries) }
    {
        self.find(&WholeKey(key))
    }

    /// The object of the key that is sought by its parts, if one stands.
    pub fn find<S: SearchKey<O>>(&self, sought: &S) -> Option<&O>
        ensures { option_copied result ≡ find O.key O.Key.cmp (S.sought sought.now) (state O.key O.Key.cmp self.now.entries) }
    {
        index::find(&self.entries, &self.present, sought)
    }

    /// The version of the key's last entry, or 0.
    pub fn last(&self, key: &O::Key) -> u64
        ensures { result ≡ last_version O.Key.cmp self.now.entries key.now }
    {
        index::last(&self.entries, &self.lasts, key)
    }

    /// The objects of the kind that stand, in order of key.
    pub fn walk(&self, kind: O::Kind) -> Walk<'_, O>
        ensures { result ≡ of_kind O.key O.kind_of O.Kind.eq kind (state O.key O.Key.cmp self.now.entries) }
    {
        self.walk_in(&OfKind(kind))
    }

    /// The objects that stand and whose keys are in the span, in order of key.
    pub fn walk_in<S: Span<O>>(&self, span: &S) -> Walk<'_, O>
        ensures { result ≡ in_span O.key (S.side span.now) (state O.key O.Key.cmp self.now.entries) }
    {
        Walk::new(&self.entries, &self.present, span)
    }

    /// The objects of the kind that stand and whose keys are behind the one that is sought by its parts, in order of key.
    pub fn walk_after<S: SearchKey<O>>(&self, kind: O::Kind, sought: &S) -> Walk<'_, O>
        ensures { result
            ≡ behind O.key O.Key.cmp (S.sought sought.now)
            (of_kind O.key O.kind_of O.Kind.eq kind (state O.key O.Key.cmp self.now.entries)) }
    {
        self.walk_in(&Behind { kind, sought })
    }

    /// How many objects of the kind stand.
    pub fn count(&self, kind: O::Kind) -> u64
        ensures { result
            ≡ length (of_kind O.key O.kind_of O.Kind.eq kind (state O.key O.Key.cmp self.now.entries)) }
    {
        self.walk(kind).len() as u64
    }

    /// The object at a place, counted from 0, among those of the kind in order of key. A walk reads all of them at less
    /// cost.
    pub fn nth(&self, kind: O::Kind, place: u64) -> Option<&O>
        ensures { option_copied result
            ≡ slice_get (of_kind O.key O.kind_of O.Kind.eq kind (state O.key O.Key.cmp self.now.entries)) place }
    {
        self.walk(kind).get(place as usize)
    }

    /// The versions of the objects of the kind that stand, in order of key.
    pub fn list(&self, alloc: Global, kind: O::Kind) -> Result<Vec<u64>, AllocError>
        ensures { IfOk result (λ list. list.items ≡ versions_of O.stamp (of_kind O.key O.kind_of O.Kind.eq kind (state O.key O.Key.cmp self.now.entries))) }
    {
        index::list(alloc, &self.entries, &self.present, kind)
    }

    /// The versions of the first `most` entries on the kind after a position.
    pub fn changes(
        &self,
        alloc: Global,
        kind: O::Kind,
        after: u64,
        most: u64,
    ) -> Result<Vec<u64>, AllocError>
        ensures { IfOk result (λ versions. versions.items ≡ changes O.kind_of O.Kind.eq self.now.entries kind after most) }
    {
        index::changes(alloc, &self.entries, kind, after, most)
    }

    /// The stamp that the object would get if it were put now, at this moment.
    pub fn stamp_of(&self, object: &O, moment: u64) -> Stamp
        requires { length self.now.entries < 2 ^ 64 - 1 }
        ensures { result ≡ stamp_after O.Item O.Key.cmp self.now.entries object.now moment }
    {
        let standing = index::find(&self.entries, &self.present, &WholeKey::<O>(object.key()));
        decide::next_stamp(standing, object, self.entries.len() as u64 + 1, moment)
    }

    /// Takes the memory for an entry. After its `Ok` a write can be applied.
    pub fn prepare(&mut self) -> Result<(), AllocError>
        ensures entries { self.new.entries ≡ self.old.entries }
        ensures spare { OnOk result (1 ≤ self.new.spare) }
        ensures kept { self.old.spare ≤ self.new.spare }
        ensures room { OnOk result (length self.new.entries < 2 ^ 64 - 1) }
        ensures err { OnErr result (self.new.spare ≡ self.old.spare) }
    {
        if self.spare == 0 {
            self.entries.reserve(1)?;
            self.lasts.reserve(1)?;
            self.present.reserve(1)?;
            self.priors.reserve(1)?;
            self.spare = 1;
        }
        Ok(())
    }

    /// Applies a write, or answers why it is not made. It takes no memory.
    pub fn apply(&mut self, write: Write<O>) -> Applied
        requires spare { 1 ≤ self.old.spare }
        requires room { length self.old.entries < 2 ^ 64 - 1 }
        requires key { PutsItsKey O.key write.plan.key write.plan.change }
        requires removal { IsNoRemovalOfNothing write.plan.expect write.plan.change }
        ensures answer { result ≡ answer_to O.Item O.Key.cmp self.old.entries write }
        ensures entries { self.new.entries ≡ entries_after O.Item O.Key.cmp self.old.entries write }
        ensures grows { Grows self.old.entries self.new.entries }
        ensures spare { self.new.spare ≡ spare_after result self.old.spare }
    {
        let version = self.entries.len() as u64 + 1;
        let of_key = index::of_key(&self.entries, &self.lasts, &self.present, &write.plan.key);
        let standing = of_key.standing;
        let answer = decide::answer_of(standing, of_key.last, self.newest_guard, version, &write);
        if let Applied::Done { version: _ } = answer {
            let entry = decide::entry_of(standing, version, write);
            let object = entry.object.as_ref();
            self.newest_guard = decide::newest_after(standing, object, self.newest_guard, version);
            index::put(&mut self.lasts, of_key.among_lasts, version);
            index::change(
                &mut self.present,
                of_key.among_present,
                object.is_some(),
                version,
            );
            index::append(&mut self.priors, of_key.last);
            self.spare -= 1;
            match self.entries.push(entry) {
                Ok(()) => {}
                Err(_) => unreachable!(),
            }
        }
        answer
    }
}
