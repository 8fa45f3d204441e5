//! Which keys a pass visits: those of a controller that are among these rows, in order.
ghost use Rattle.std.specs.Prelude.{◌≡◌, map};
ghost use Rattle.std.specs.List.{find};
ghost use Rattle.std.specs.Option.{option_copied};
ghost use Rattle.version_store.specs.Index.{AreInOrder};
ghost use Rattle.resource_types.specs.contracts.names.SlotKeyOrd.TheImpl as slot_order;
ghost use Rattle.resource_types.specs.Lookups.{State, state};
ghost use Rattle.control_rules.specs.Steps.{is_after};
ghost use Rattle.step_scheduler.specs.Passes.{is_next, is_passed, lesser};

use resource_types::{Controller, Object, SlotKey};
use slot_keys::is_key;
use slot_table::Keyed;
use version_store::Store;

// Whether the key comes after the last one.
fn is_after(last: &Option<SlotKey>, key: &SlotKey) -> bool
    ensures { result ≡ is_after last.now key.now }
{
    match last {
        Some(last) => last.cmp(key).is_lt(),
        None => true,
    }
}

// Whether the key is one of the controller's that comes after the last one.
fn is_next(
    store: &Store<Object>,
    controller: Controller,
    last: &Option<SlotKey>,
    key: &SlotKey,
) -> bool
    ensures { result ≡ is_next controller last.now (state store.now.entries) key.now }
{
    (key.controller == controller && is_after(last, key)) && is_key(store, key)
}

// Whether the controller's pass has the key behind it: an earlier controller's, or one that doesn't come after the last.
fn is_passed(controller: Controller, last: &Option<SlotKey>, key: &SlotKey) -> bool
    ensures { result ≡ is_passed controller last.now key.now }
{
    key.controller.cmp(&controller).is_lt() || !is_after(last, key)
}

// The rows that the controller's pass doesn't have behind it.
fn rows_ahead<'a, R: Keyed<Key = SlotKey>>(
    rows: &'a [R],
    controller: Controller,
    last: &Option<SlotKey>,
) -> &'a [R]
    requires { AreInOrder R.key slot_order.ghosts.cmp rows.now }
    ensures ordered { AreInOrder R.key slot_order.ghosts.cmp result.now }
    ensures next { (st : State) → find (is_next controller last.now st) (map R.key result.now) ≡ find (is_next controller last.now st) (map R.key rows.now) }
{
    let passed = rows.partition_point(
        |row: &R| -> bool
            ensures { result ≡ is_passed controller last.entry.now (R.key row.now) }
        { is_passed(controller, last, row.key()) },
    );
    &rows[passed..]
}

/// The first of the rows' keys that is one of the controller's and comes after the last one. The rows are in order of
/// key: those behind the pass are left out by a search, and it ends at the first of a later controller.
pub fn first_next<'a, R: Keyed<Key = SlotKey>>(
    store: &Store<Object>,
    rows: &'a [R],
    controller: Controller,
    last: &Option<SlotKey>,
) -> Option<&'a SlotKey>
    requires ordered { AreInOrder R.key slot_order.ghosts.cmp rows.now }
    ensures { option_copied result ≡ find (is_next controller last.now (state store.now.entries)) (map R.key rows.now) }
{
    for row in rows_ahead(rows, controller, last) {
        let key = row.key();
        if key.controller.cmp(&controller).is_gt() {
            return None;
        }
        if is_next(store, controller, last, key) {
            return Some(key);
        }
    }
    None
}

/// The lesser of two keys, where there are two.
pub fn lesser<'a>(one: Option<&'a SlotKey>, other: Option<&'a SlotKey>) -> Option<&'a SlotKey>
    ensures { option_copied result ≡ lesser (option_copied one.entry) (option_copied other.entry) }
{
    let Some(key) = one else {
        return other;
    };
    match other {
        Some(rival) => {
            if rival.cmp(key).is_lt() {
                Some(rival)
            } else {
                Some(key)
            }
        }
        None => Some(key),
    }
}
