//! A reconciler that keeps a copy of each source.
ghost use Rattle.std.specs.Prelude.{◌≡◌, ◌+◌, ◌-◌, ◌<◌, ◌≤◌, ◌^◌, length, IfOk};
ghost use Rattle.std.specs.Option.{option_copied, option_map};
ghost use Rattle.version_store.specs.State.{state, state_at};
ghost use Rattle.version_store.specs.Apply.{IsMakeable};
ghost use Rattle.store_trial.specs.Copies.{next_copy, answer_of, found_of, copies_makeable};

use crate::thing::{Key, KeyParts, Kind, Thing};
use std::alloc::{AllocError, Global};
use version_store::{Change, Expect, Item, Plan, Reconciler, Stamp, Store, Write};

/// Makes a copy of each source, with this status.
#[derive(Drop)]
pub struct Copier {
    pub status: u64,
}

/// What stood under a copy's key.
#[derive(Clone, Copy, Debug, PartialEq, Eq)]
pub struct Found {
    pub version: u64,
    pub spec: u64,
    pub status: u64,
}

/// What was seen of a name: the source's spec, and its copy.
#[derive(Drop)]
pub struct CopyView {
    pub name: u64,
    pub status: u64,
    pub wanted: Option<u64>,
    pub found: Option<Found>,
}

// The spec that a copy of this source is to have.
fn wanted_of(source: Option<&Thing>) -> Option<u64>
    ensures { result ≡ option_map (λ o. o.spec) (option_copied source.entry) }
{
    let source = source?;
    Some(source.spec)
}

// What a view keeps of a copy.
fn found_of(copy: Option<&Thing>) -> Option<Found>
    ensures { result ≡ option_map found_of (option_copied copy.entry) }
{
    let copy = copy?;
    Some(Found {
        version: copy.stamp.version,
        spec: copy.spec,
        status: copy.status,
    })
}

impl Reconciler<Thing> for Copier {
    type View = CopyView;

    ghost fits = { λ r st now. Unit {0} };

    ghost next = { next_copy };

    ghost means = { answer_of };

    fn look(
        &self,
        _alloc: Global,
        store: &Store<Thing>,
        name: &u64,
        _now: u64,
    ) -> Result<CopyView, AllocError> {
        let source = KeyParts {
            kind: Kind::Source,
            name,
        };
        let copy = KeyParts {
            kind: Kind::Copy,
            name,
        };
        let wanted = wanted_of(store.find(&source));
        let found = found_of(store.find(&copy));
        Ok(CopyView {
            name: *name,
            status: self.status,
            wanted,
            found,
        })
    }

    fn plan(&self, _alloc: Global, view: &CopyView) -> Result<Option<Plan<Thing>>, AllocError> {
        let Some(spec) = view.wanted else {
            return Ok(None);
        };
        let key = Key {
            kind: Kind::Copy,
            name: view.name,
        };
        let (expect, guarded, status) = match view.found {
            None => (Expect::Absent, false, view.status),
            Some(found) => {
                if found.spec == spec {
                    return Ok(None);
                }
                (Expect::At(found.version), true, found.status)
            }
        };
        let stamp = Stamp {
            version: 0,
            generation: 0,
            uid: 0,
            created: 0,
        };
        Ok(Some(Plan {
            key,
            expect,
            guarded,
            change: Change::Put(Thing {
                key,
                stamp,
                spec,
                status,
            }),
        }))
    }

    ghost makeable = { copies_makeable };
}

/// The plan of a look, where another write was applied since: it is due in the state that was looked at.
pub fn plan_of_old_look<O: Item, R: Reconciler<O>>(
    alloc: Global,
    reconciler: &R,
    store: &mut Store<O>,
    name: &O::Name,
    now: u64,
    other: Write<O>,
) -> Result<Option<Plan<O>>, AllocError>
    requires spare { 1 ≤ store.old.spare }
    requires room { length store.old.entries < 2 ^ 64 - 1 }
    requires other { IsMakeable O.key other.plan }
    requires fits { R.fits reconciler.now (state O.key O.Key.cmp store.old.entries) now }
    ensures { IfOk result (λ plan. plan ≡ R.next reconciler.now (state_at O.key O.Key.cmp store.new.entries (length store.old.entries)) name.now now) }
{
    let view = reconciler.look(alloc, store, name, now)?;
    store.apply(other);
    reconciler.plan(alloc, &view)
}
