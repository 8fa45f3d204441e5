//! The store, tried on things.
ghost use Rattle.std.specs.Prelude.{◌≡◌, ◌+◌, ◌-◌, ◌<◌, ◌≤◌, ◌^◌, length};
ghost use Rattle.version_store.specs.Apply.{IsMakeable, answer_to};

use crate::copier::Copier;
use crate::thing::{Actor, Key, Kind, Thing};
use std::alloc::{AllocError, Global};
use std::test::Fail;
use version_store::{Applied, Change, Expect, Plan, Reconciler, Stamp, Store, Write, plain};

const NO_STAMP: Stamp = Stamp {
    version: 0,
    generation: 0,
    uid: 0,
    created: 0,
};

fn put(key: Key, expect: Expect, guarded: bool, spec: u64, status: u64) -> Plan<Thing>
    ensures { IsMakeable (λ o. o.key) result }
{
    Plan {
        key,
        expect,
        guarded,
        change: Change::Put(Thing {
            key,
            stamp: NO_STAMP,
            spec,
            status,
        }),
    }
}

fn remove(key: Key, version: u64, guarded: bool) -> Plan<Thing>
    ensures { IsMakeable (λ o. o.key) result }
{
    Plan {
        key,
        expect: Expect::At(version),
        guarded,
        change: Change::Remove,
    }
}

fn apply(
    store: &mut Store<Thing>,
    plan: Plan<Thing>,
    seen: u64,
    moment: u64,
) -> Result<Applied, AllocError>
    requires { IsMakeable (λ o. o.key) plan }
{
    store.prepare()?;
    Ok(store.apply(Write {
        plan,
        actor: Actor::Client,
        seen,
        read_at: 0,
        moment,
    }))
}

// A put where a spec and a status are given, and else a removal.
fn plan_of(key: Key, expect: Expect, guarded: bool, object: Option<(u64, u64)>) -> Plan<Thing>
    ensures { IsMakeable (λ o. o.key) result }
{
    match (object, expect) {
        (Some((spec, status)), _) => put(key, expect, guarded, spec, status),
        (None, Expect::At(version)) => remove(key, version, guarded),
        (None, Expect::Absent) => put(key, expect, guarded, 0, 0),
    }
}

fn source(name: u64) -> Key {
    Key {
        kind: Kind::Source,
        name,
    }
}

fn copy(name: u64) -> Key {
    Key {
        kind: Kind::Copy,
        name,
    }
}

// The version, the generation, the uid and the creation of what stands.
fn stamp(store: &Store<Thing>, key: Key) -> Option<(u64, u64, u64, u64)> {
    let thing = store.get(&key)?;
    let stamp = thing.stamp;
    Some((stamp.version, stamp.generation, stamp.uid, stamp.created))
}

/// A write, and what must come of it: the answer, and then the key's stamp.
type Row = (
    Key,
    Expect,
    bool,
    Option<(u64, u64)>,
    u64,
    Applied,
    Option<(u64, u64, u64, u64)>,
);

fn rows() -> [Row; 14] {
    let (a, b, new) = (source(1), copy(1), Expect::Absent);
    let at = |version: u64| Expect::At(version);
    let of = |spec: u64, status: u64| Some((spec, status));
    let done = |version: u64| Applied::Done { version };
    let same = |version: u64| Applied::Same { version };
    let stale = |newer: u64| Applied::Stale { newer };
    let exists = |version: u64| Applied::Exists { version };
    let absent = |last: u64| Applied::Absent { last };
    let (first, second) = (Some((1, 1, 1, 10)), Some((2, 1, 1, 10)));
    let third = Some((3, 2, 1, 10));
    let (copied, changed) = (Some((4, 1, 4, 17)), Some((6, 2, 4, 17)));
    [
        (a, new, false, of(5, 0), 0, done(1), first),
        (a, new, false, of(5, 0), 1, exists(1), first),
        (a, at(1), false, of(5, 0), 1, same(1), first),
        (a, at(1), false, of(5, 1), 1, done(2), second),
        (a, at(1), false, of(5, 2), 2, stale(2), second),
        (a, at(2), false, of(6, 1), 2, done(3), third),
        (b, new, true, of(5, 0), 2, stale(3), None),
        (b, new, true, of(5, 0), 3, done(4), copied),
        (a, at(3), false, None, 4, done(5), None),
        (a, at(3), false, of(6, 1), 5, absent(5), None),
        (copy(2), at(1), false, of(6, 1), 5, absent(0), None),
        (b, at(4), true, of(6, 0), 3, done(6), changed),
        (a, new, false, of(6, 1), 6, done(7), Some((7, 1, 7, 22))),
        (b, at(6), true, None, 6, stale(7), changed),
    ]
}

#[test]
fn each_case_of_apply(rt: HostRuntime) -> Result<(), Fail> {
    let mut store = Store::new(rt.alloc());
    let mut moment = 10u64;
    for (key, expect, guarded, object, seen, answer, stands) in rows() {
        let plan = plan_of(key, expect, guarded, object);
        assert_eq!(rt;
            apply(&mut store, plan, seen, moment)?,
            answer,
            "at {moment}"
        );
        assert_eq!(rt; stamp(&store, key), stands, "at {moment}");
        moment = moment.wrapping_add(1);
    }
    Ok(())
}

// Copies and sources 3, 1 and 2, of which the copy 1 is removed.
fn five_things(alloc: Global) -> Result<Store<Thing>, AllocError> {
    let mut store = Store::new(alloc);
    for name in [3, 1, 2] {
        apply(
            &mut store,
            put(copy(name), Expect::Absent, false, name, 0),
            0,
            0,
        )?;
        apply(
            &mut store,
            put(source(name), Expect::Absent, false, name, 0),
            0,
            0,
        )?;
    }
    apply(&mut store, remove(copy(1), 3, false), 6, 0)?;
    Ok(store)
}

#[test]
fn lists_in_order_of_key(rt: HostRuntime) -> Result<(), Fail> {
    let store = five_things(rt.alloc())?;
    let copies = store.list(rt.alloc(), Kind::Copy)?;
    let sources = store.list(rt.alloc(), Kind::Source)?;
    let changed = store.changes(rt.alloc(), Kind::Copy, 1, 2)?;
    assert_eq!(rt; copies.as_slice(), [5, 1].as_slice());
    assert_eq!(rt; sources.as_slice(), [4, 6, 2].as_slice());
    assert_eq!(rt; changed.as_slice(), [3, 5].as_slice());
    Ok(())
}

#[test]
fn counts_and_entries(rt: HostRuntime) -> Result<(), Fail> {
    let store = five_things(rt.alloc())?;
    let counts = (store.count(Kind::Copy), store.count(Kind::Source));
    assert_eq!(rt; (counts, store.version()), ((2, 3), 7));
    let second = store.nth(Kind::Copy, 1);
    assert!(rt;
        second.is_some_and(|copy| copy.key.name == 3) && store.nth(Kind::Copy, 2).is_none()
    );
    let removal = store.entry(7);
    assert!(rt; removal.is_some_and(|entry| entry.object.is_none() && entry.key.name == 1));
    assert!(rt; store.entry(8).is_none() && store.entry(0).is_none());
    Ok(())
}

#[test]
fn a_look_plans_what_was_due(rt: HostRuntime) -> Result<(), Fail> {
    let mut store = Store::new(rt.alloc());
    let copier = Copier { status: 9 };
    apply(
        &mut store,
        put(source(1), Expect::Absent, false, 5, 0),
        0,
        0,
    )?;
    let view = copier.look(rt.alloc(), &store, &1, 0)?;
    apply(&mut store, put(source(1), Expect::At(1), false, 6, 0), 1, 0)?;
    let plan = copier.plan(rt.alloc(), &view)?;
    assert!(rt; plan.is_some_and(|plan| plan.expect == Expect::Absent && plan.key == copy(1)));
    Ok(())
}

/// Random numbers, by a linear congruence.
#[derive(Drop)]
struct Random(u64);

impl Random {
    fn below(&mut self, limit: u64) -> u64
        requires { 0 < limit }
        ensures { result < limit }
    {
        self.0 = self
            .0
            .wrapping_mul(6364136223846793005)
            .wrapping_add(1442695040888963407);
        (self.0 >> 33) % limit
    }
}

fn random_plan(random: &mut Random, key: Key, last: u64) -> Plan<Thing>
    ensures { IsMakeable (λ o. o.key) result }
{
    let guarded = random.below(4) == 0;
    let version = if random.below(8) == 0 {
        random.below(100)
    } else {
        last
    };
    let (spec, status) = (random.below(2), random.below(2));
    match random.below(5) {
        0 => remove(key, version, guarded),
        1 | 2 => put(key, Expect::Absent, guarded, spec, status),
        _ => put(key, Expect::At(version), guarded, spec, status),
    }
}

// The key's last version and stamp, and the answer to a write, by scans.
fn scanned(
    store: &Store<Thing>,
    write: &Write<Thing>,
) -> (u64, Option<(u64, u64, u64, u64)>, Applied)
    requires { length store.now.entries < 2 ^ 64 - 1 }
{
    let _version = store.version();
    let (entries, key) = (store.entries(), &write.plan.key);
    let stamp = match plain::find(entries, key) {
        Some(thing) => {
            let stamp = thing.stamp;
            Some((stamp.version, stamp.generation, stamp.uid, stamp.created))
        }
        None => None,
    };
    (
        plain::last_version(entries, key),
        stamp,
        plain::answer_to(entries, write),
    )
}

fn random_key(random: &mut Random) -> Key {
    let name = random.below(20);
    if random.below(2) == 0 {
        source(name)
    } else {
        copy(name)
    }
}

// Applies a random write, and says whether the index answered as the scans do.
fn random_step(
    store: &mut Store<Thing>,
    random: &mut Random,
    moment: u64,
) -> Result<(bool, Applied), AllocError> {
    store.prepare()?;
    let key = random_key(random);
    let (last, stands) = (store.last(&key), stamp(store, key));
    let plan = random_plan(random, key, last);
    let seen = store.version() - random.below(store.version() + 1) / 8;
    let write = Write {
        plan,
        actor: Actor::Client,
        seen,
        read_at: 0,
        moment,
    };
    let expected = scanned(store, &write);
    let answer = store.apply(write);
    Ok(((last, stands, answer) == expected, answer))
}

fn case_of(answer: Applied) -> usize
    ensures { result < 5 }
{
    match answer {
        Applied::Done { version: _ } => 0,
        Applied::Same { version: _ } => 1,
        Applied::Stale { newer: _ } => 2,
        Applied::Exists { version: _ } => 3,
        Applied::Absent { last: _ } => 4,
    }
}

#[test]
fn the_index_agrees_with_scans(rt: HostRuntime) -> Result<(), Fail> {
    let mut store = Store::new(rt.alloc());
    let mut random = Random(7);
    let mut counts = [0u64; 5];
    for moment in 0..4000 {
        let (agrees, answer) = random_step(&mut store, &mut random, moment)?;
        assert!(rt; agrees, "{answer:?} at {moment}");
        let case = case_of(answer);
        counts[case] = counts[case].wrapping_add(1);
    }
    assert!(rt; counts.iter().all(|count| *count > 100), "in {counts:?}");
    Ok(())
}
