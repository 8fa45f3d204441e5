//! Polls: what changed in a journal after a position.
ghost use Rattle.std.specs.Prelude.{◌≡◌, ◌≢◌, ◌+◌, ◌<◌, ◌≤◌, ◌^◌, IsTrue, IfOk, Some, length, map, take, slice_get};
ghost use Rattle.std.specs.Option.{option_copied};
ghost use Rattle.json_tree.specs.Tree.{is_well_formed, depth_of};
ghost use Rattle.resource_codec.specs.Views.{is_within, is_asked, is_born, event_json, event_of, most_events, changes_after, told_version, poll_of, AreShown, AreStamped};

use crate::events::{poll_form, put_event, removal_event};
use json_tree::{Json, Seq, Text};
use resource_types::{Key, Kind, Object};
use std::alloc::{AllocError, Global};
use version_store::{Entry, Store};

// How many events a poll has at most.
const MOST_EVENTS: usize = 256;

// Events, and the version up to which they tell.
#[derive(Drop)]
struct Told {
    events: Seq<Json>,
    version: u64,
}

/// The poll of a kind: the first 256 entries after a position that are of the kind, and of the namespace where one is
/// given.
///
/// Its version is that of the last event where there are 256, and else the journal's length, so the next poll goes on
/// from there.
pub fn poll_json(
    alloc: Global,
    store: &Store<Object>,
    kind: Kind,
    space: Option<&Text>,
    after: u64,
) -> Result<Json, AllocError>
    requires within { after ≤ length store.now.entries }
    requires kind { kind ≢ Kind.Health }
    ensures poll { IfOk result (λ j. j ≡ poll_of store.now.entries kind (option_copied space.entry) after) }
    ensures well { AreShown store.now.entries → IfOk result (λ j. IsTrue (is_well_formed j) × (depth_of j ≤ 43)) }
{
    let version = store.version();
    let told = told_after(alloc, store.entries(), kind, space, after, version)?;
    poll_form(alloc, told.events, told.version)
}

// The first events after a position. The whole journal tells up to its own version.
fn told_after(
    alloc: Global,
    entries: &[Entry<Object>],
    kind: Kind,
    space: Option<&Text>,
    after: u64,
    version: u64,
) -> Result<Told, AllocError>
    requires stamped { AreStamped entries.now }
    requires version { version ≡ length entries.now }
    ensures events { IfOk result (λ t. t.events ≡ map (event_of entries.now) (take most_events (changes_after entries.now kind (option_copied space.entry) after))) }
    ensures version { IfOk result (λ t. t.version ≡ told_version entries.now (changes_after entries.now kind (option_copied space.entry) after)) }
{
    let mut events = Seq::new(alloc);
    for place in after as usize..entries.len() {
        let entry = &entries[place];
        if !is_asked(kind, space, &entry.key) {
            continue;
        }
        let told = place as u64 + 1;
        events.push(event(alloc, entry, told)?)?;
        if events.len() == MOST_EVENTS {
            return Ok(Told {
                events,
                version: told,
            });
        }
    }
    Ok(Told { events, version })
}

// Whether a key is of the kind, and of the namespace if one is given.
fn is_asked(kind: Kind, space: Option<&Text>, key: &Key) -> bool
    ensures { result ≡ is_asked kind (option_copied space.entry) key.now }
{
    key.kind == kind && is_within(space, &key.name.space)
}

/// Whether a namespace is the one that is asked for. All are where none is given.
pub fn is_within(asked: Option<&Text>, space: &Text) -> bool
    ensures { result ≡ is_within (option_copied asked.entry) space.now }
{
    match asked {
        Some(asked) => *asked == *space,
        None => true,
    }
}

// The event of an entry: the entry of its version made an object that has that version as uid.
fn event(alloc: Global, entry: &Entry<Object>, version: u64) -> Result<Json, AllocError>
    ensures { IfOk result (λ j. j ≡ event_json entry.now.key version (is_born version entry.now.object) entry.now.object) }
{
    match &entry.object {
        Some(object) => put_event(alloc, object, object.meta.stamp.uid == version),
        None => removal_event(alloc, &entry.key, version),
    }
}
