//! What comes of a write, by what stands.
ghost use Rattle.std.specs.Prelude.{◌≡◌, ◌-◌, ◌^◌, cond};
ghost use Rattle.std.specs.Option.{option_copied};
ghost use Rattle.version_store.specs.Journal.{changes_guard, next_stamp, GenerationBelow};
ghost use Rattle.version_store.specs.Apply.{answer_of, entry_of};

use crate::item::{Item, Stamp};
use crate::write::{Applied, Change, Entry, Expect, Plan, Write};

/// The answer to a write, by the first case that holds.
pub fn answer_of<O: Item>(
    standing: Option<&O>,
    last: u64,
    newest: u64,
    version: u64,
    write: &Write<O>,
) -> Applied
    ensures { result ≡ answer_of O.Item (option_copied standing.entry) last newest version write.now }
{
    let plan = &write.plan;
    match (plan.expect, standing) {
        (Expect::Absent, None) => {}
        (Expect::Absent, Some(_)) => return Applied::Exists { version: last },
        (Expect::At(_), None) => return Applied::Absent { last },
        (Expect::At(expected), Some(_)) => {
            if expected != last {
                return Applied::Stale { newer: last };
            }
        }
    }
    if plan.guarded && write.seen < newest {
        return Applied::Stale { newer: newest };
    }
    if let (Change::Put(object), Some(standing)) = (&plan.change, standing) {
        if object.same(standing) {
            return Applied::Same { version: last };
        }
    }
    Applied::Done { version }
}

/// Whether an entry with this object makes a guarding object or changes its spec.
pub fn changes_guard<O: Item>(standing: Option<&O>, object: Option<&O>) -> bool
    ensures { result ≡ changes_guard O.Item (option_copied standing.entry) (option_copied object.entry) }
{
    let Some(object) = object else {
        return false;
    };
    if !object.guards() {
        return false;
    }
    match standing {
        Some(standing) => !standing.same_spec(object),
        None => true,
    }
}

/// The newest version at which a guard changed, once an entry with this object gets the version.
pub fn newest_after<O: Item>(
    standing: Option<&O>,
    object: Option<&O>,
    newest: u64,
    version: u64,
) -> u64
    ensures { result ≡ cond (changes_guard O.Item (option_copied standing.entry) (option_copied object.entry)) version newest }
{
    if changes_guard(standing, object) {
        version
    } else {
        newest
    }
}

/// The stamp of an object that is put.
pub fn next_stamp<O: Item>(standing: Option<&O>, object: &O, version: u64, moment: u64) -> Stamp
    requires { GenerationBelow O.stamp (2 ^ 64 - 1) (option_copied standing) }
    ensures { result ≡ next_stamp O.Item (option_copied standing.entry) object.now version moment }
{
    let Some(standing) = standing else {
        return Stamp {
            version,
            generation: 1,
            uid: version,
            created: moment,
        };
    };
    let old = standing.stamp();
    let generation = if standing.same_spec(object) {
        old.generation
    } else {
        old.generation + 1
    };
    Stamp {
        version,
        generation,
        uid: old.uid,
        created: old.created,
    }
}

/// The entry that is made for a write.
pub fn entry_of<O: Item>(standing: Option<&O>, version: u64, write: Write<O>) -> Entry<O>
    requires { GenerationBelow O.stamp (2 ^ 64 - 1) (option_copied standing) }
    ensures { result ≡ entry_of O.Item (option_copied standing.entry) version write }
{
    let Write {
        plan,
        actor,
        seen,
        read_at,
        moment,
    } = write;
    let Plan {
        key,
        expect: _,
        guarded: _,
        change,
    } = plan;
    let object = match change {
        Change::Put(mut object) => {
            let stamp = next_stamp(standing, &object, version, moment);
            object.set_stamp(stamp);
            Some(object)
        }
        Change::Remove => None,
    };
    Entry {
        key,
        object,
        actor,
        seen,
        read_at,
        moment,
    }
}
