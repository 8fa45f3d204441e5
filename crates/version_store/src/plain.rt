//! The plain program: answers of a store, each by a scan of its journal.
ghost use Rattle.std.specs.Prelude.{◌≡◌, ◌<◌, ◌-◌, ◌^◌, length};
ghost use Rattle.std.specs.Option.{option_copied};
ghost use Rattle.version_store.specs.State.{state, find};
ghost use Rattle.version_store.specs.Journal.{last_version, newest_guard, AreStamped};
ghost use Rattle.version_store.specs.Apply.{answer_to};

use crate::decide;
use crate::item::Item;
use crate::write::{Applied, Entry, Write};

/// The object of the key, if one stands after these entries.
pub fn find<'a, O: Item>(entries: &'a [Entry<O>], key: &O::Key) -> Option<&'a O>
    requires { AreStamped O.Item O.Key.cmp entries.now }
    ensures { option_copied result ≡ find O.key O.Key.cmp key.now (state O.key O.Key.cmp entries.now) }
{
    let mut standing = None;
    for entry in entries {
        if entry.key.cmp(key).is_eq() {
            standing = entry.object.as_ref();
        }
    }
    standing
}

/// The version of the key's last entry, or 0.
pub fn last_version<O: Item>(entries: &[Entry<O>], key: &O::Key) -> u64
    requires { length entries.now < 2 ^ 64 }
    ensures { result ≡ last_version O.Key.cmp entries.now key.now }
{
    let mut version = 0;
    let mut last = 0;
    for entry in entries {
        version += 1;
        if entry.key.cmp(key).is_eq() {
            last = version;
        }
    }
    last
}

/// The version of the last entry that made a guarding object or changed its spec, or 0.
pub fn newest_guard<O: Item>(entries: &[Entry<O>]) -> u64
    requires count { length entries.now < 2 ^ 64 }
    requires stamped { AreStamped O.Item O.Key.cmp entries.now }
    ensures { result ≡ newest_guard O.Item O.Key.cmp entries.now }
{
    let mut left = entries.len();
    while left > 0 {
        let entry = &entries[left - 1];
        let standing = find(&entries[..left - 1], &entry.key);
        if decide::changes_guard(standing, entry.object.as_ref()) {
            return left as u64;
        }
        left -= 1;
    }
    0
}

/// What comes of a write after these entries.
pub fn answer_to<O: Item>(entries: &[Entry<O>], write: &Write<O>) -> Applied
    requires count { length entries.now < 2 ^ 64 - 1 }
    requires stamped { AreStamped O.Item O.Key.cmp entries.now }
    ensures { result ≡ answer_to O.Item O.Key.cmp entries.now write.now }
{
    let key = &write.plan.key;
    let standing = find(entries, key);
    let last = last_version(entries, key);
    decide::answer_of(
        standing,
        last,
        newest_guard(entries),
        entries.len() as u64 + 1,
        write,
    )
}
