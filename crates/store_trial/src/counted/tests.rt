//! How many keys a look-up compares.
use super::*;
use std::alloc::AllocError;
use std::test::Fail;
use version_store::{Applied, Change, Expect, Plan, Store, Write};

fn put_counted<'a>(
    store: &mut Store<Counted<'a>>,
    number: u64,
    counter: &'a Cell<u64>,
) -> Result<Applied, AllocError> {
    store.prepare()?;
    let object = Counted {
        key: CountedKey { number, counter },
        stamp: Stamp {
            version: 0,
            generation: 0,
            uid: 0,
            created: 0,
        },
    };
    let plan = Plan {
        key: CountedKey { number, counter },
        expect: Expect::Absent,
        guarded: false,
        change: Change::Put(object),
    };
    Ok(store.apply(Write {
        plan,
        actor: true,
        seen: 0,
        read_at: 0,
        moment: 0,
    }))
}

// 4096 objects, put in a scattered order.
fn fill<'a>(store: &mut Store<Counted<'a>>, counter: &'a Cell<u64>) -> Result<(), AllocError> {
    for step in 0..4096u64 {
        put_counted(store, step * 2731 % 4096, counter)?;
    }
    Ok(())
}

// Whether the object and the last version of a key are found by few comparisons.
fn is_found<'a>(store: &Store<Counted<'a>>, number: u64, counter: &'a Cell<u64>) -> bool {
    let key = CountedKey { number, counter };
    counter.set(0);
    let stands = store.get(&key).is_some() && counter.get() <= 64;
    counter.set(0);
    stands && store.last(&key) > 0 && counter.get() <= 64
}

// Whether a walk reads all objects behind a key for the comparisons of a search.
fn is_walked<'a>(store: &Store<Counted<'a>>, number: u64, counter: &'a Cell<u64>) -> bool {
    let key = CountedKey { number, counter };
    counter.set(0);
    let walk = store.walk_after(true, &key);
    let mut are_behind = true;
    for place in 0..walk.len() {
        are_behind = are_behind && walk.at(place).key.number > number;
    }
    are_behind && walk.len() as u64 == 4095u64.saturating_sub(number) && counter.get() <= 64
}

// Whether a walk over a kind compares no key: a kind is told from a key.
fn compares_none<'a>(store: &Store<Counted<'a>>, counter: &'a Cell<u64>) -> bool {
    counter.set(0);
    let walk = store.walk(true);
    let last = walk.get(4095).is_some();
    walk.len() == 4096 && last && counter.get() == 0
}

#[test]
fn look_ups_and_walks_compare_few_keys(rt: HostRuntime) -> Result<(), Fail> {
    let cell = Cell::new(0u64);
    let mut store: Store<Counted> = Store::new(rt.alloc());
    fill(&mut store, &cell)?;
    let mut are_few = compares_none(&store, &cell);
    for number in 0..4096u64 {
        are_few = are_few && is_found(&store, number, &cell);
    }
    for number in [0, 1, 2047, 4094, 4095] {
        are_few = are_few && is_walked(&store, number, &cell);
    }
    assert!(rt; are_few);
    Ok(())
}
