//! Polls: what changed in a journal after a position.
ghost use Rattle.std.specs.Prelude.{◌≡◌, ◌≤◌, Some, codes, length, map, take, IfOk, OnOk, IsUtf8};
ghost use Rattle.std.specs.Option.{option_copied};
ghost use Rattle.serde_json.specs.Written.{compact_text};
ghost use Rattle.json_tree.specs.Tree.{data_of};
ghost use Rattle.json_tree.specs.declared.value.Json.{Arr};
ghost use Rattle.resource_codec.specs.Written.{object_of};
ghost use Rattle.resource_codec.specs.Lists.{put_type, put_event, removal_namespace, removal_event};
ghost use Rattle.resource_codec.specs.Views.{is_within, is_asked, is_born, event_json, event_of, most_events, changes_after, told_version, poll_of, AreStamped};
ghost use Rattle.object_writer.specs.Tokens.{with_value, with_values, with_field};

use crate::objects::show_object;
use crate::tables::other_namespace;
use crate::text::JsonText;
use json_tree::Text;
use resource_types::{Key, Kind, Object};
use std::alloc::{AllocError, Global};
use version_store::{Entry, Store};

/// How many events a poll has at most.
const MOST_EVENTS: usize = 256;

/// The text of the poll of a kind: the first 256 entries after a position that are of the kind, and of the namespace
/// where one is given, and the version up to which they tell.
pub fn write_poll(
    alloc: Global,
    store: &Store<Object>,
    kind: Kind,
    space: Option<&Text>,
    after: u64,
) -> Result<Vec<u8>, AllocError>
    requires within { after ≤ length store.now.entries }
    ensures text { IfOk result
        (λ bytes. bytes.items ≡ compact_text (data_of (poll_of store.now.entries kind (option_copied space.entry) after))) }
    ensures utf8 { IfOk result (λ bytes. IsUtf8 bytes.items) }
{
    let mut out = JsonText::new(alloc)?;
    show_poll(alloc, &mut out, store, kind, space, after)?;
    Ok(out.into_bytes())
}

fn show_poll(
    alloc: Global,
    out: &mut JsonText,
    store: &Store<Object>,
    kind: Kind,
    space: Option<&Text>,
    after: u64,
) -> Result<(), AllocError>
    requires { after ≤ length store.now.entries }
    ensures { OnOk result (out.new ≡ with_value (poll_of store.now.entries kind (option_copied space.entry) after) out.old) }
{
    let version = store.version();
    out.open_object()?;
    let told = events_field(alloc, out, store.entries(), kind, space, after, version)?;
    out.text_field("kind", "Poll")?;
    out.digits_field("resourceVersion", told)?;
    out.close_object()
}

// Writes the first events after a position, and gives the version up to which they tell.
fn events_field(
    alloc: Global,
    out: &mut JsonText,
    entries: &[Entry<Object>],
    kind: Kind,
    space: Option<&Text>,
    after: u64,
    version: u64,
) -> Result<u64, AllocError>
    requires stamped { AreStamped entries.now }
    requires version { version ≡ length entries.now }
    ensures tokens { IfOk result (λ _. out.new ≡ with_field (codes "events") (Some (Arr (map (event_of entries.now)
        (take most_events (changes_after entries.now kind (option_copied space.entry) after))))) out.old) }
    ensures version { IfOk result
        (λ told. told ≡ told_version entries.now (changes_after entries.now kind (option_copied space.entry) after)) }
{
    out.name("events")?;
    out.open_array()?;
    let told = show_events(alloc, out, entries, kind, space, after, version)?;
    out.close_array()?;
    Ok(told)
}

// The whole journal tells up to its own version.
fn show_events(
    alloc: Global,
    out: &mut JsonText,
    entries: &[Entry<Object>],
    kind: Kind,
    space: Option<&Text>,
    after: u64,
    version: u64,
) -> Result<u64, AllocError>
    requires stamped { AreStamped entries.now }
    requires version { version ≡ length entries.now }
    ensures tokens { IfOk result (λ _. out.new ≡ with_values (map (event_of entries.now)
        (take most_events (changes_after entries.now kind (option_copied space.entry) after))) out.old) }
    ensures version { IfOk result
        (λ told. told ≡ told_version entries.now (changes_after entries.now kind (option_copied space.entry) after)) }
{
    let mut count = 0;
    for place in after as usize..entries.len() {
        let entry = &entries[place];
        if !is_asked(kind, space, &entry.key) {
            continue;
        }
        let told = place as u64 + 1;
        show_event(alloc, out, entry, told)?;
        count += 1;
        if count == MOST_EVENTS {
            return Ok(told);
        }
    }
    Ok(version)
}

// Whether a key is of the kind, and of the namespace if one is given.
fn is_asked(kind: Kind, space: Option<&Text>, key: &Key) -> bool
    ensures { result ≡ is_asked kind (option_copied space.entry) key.now }
{
    key.kind == kind && is_within(space, &key.name.space)
}

// Whether a namespace is the one that is asked for. All are where none is given.
fn is_within(asked: Option<&Text>, space: &Text) -> bool
    ensures { result ≡ is_within (option_copied asked.entry) space.now }
{
    match asked {
        Some(asked) => *asked == *space,
        None => true,
    }
}

// The event of an entry: the entry of its version made an object that has that version as uid.
fn show_event(
    alloc: Global,
    out: &mut JsonText,
    entry: &Entry<Object>,
    version: u64,
) -> Result<(), AllocError>
    ensures { OnOk result (out.new
        ≡ with_value (event_json entry.now.key version (is_born version entry.now.object) entry.now.object) out.old) }
{
    match &entry.object {
        Some(object) => show_put(alloc, out, object, object.meta.stamp.uid == version),
        None => show_removal(out, &entry.key, version),
    }
}

fn put_type(made: bool) -> &'static str
    ensures { result.now ≡ put_type made }
{
    if made { "ADDED" } else { "MODIFIED" }
}

fn show_put(
    alloc: Global,
    out: &mut JsonText,
    object: &Object,
    made: bool,
) -> Result<(), AllocError>
    ensures { OnOk result (out.new ≡ with_value (object_of (put_event object.now made)) out.old) }
{
    out.open_object()?;
    out.name("object")?;
    show_object(alloc, out, object)?;
    out.text_field("type", put_type(made))?;
    out.close_object()
}

// The namespace that a removal shows: that of a Table, where it is not `default`.
fn removal_namespace(key: &Key) -> &str
    ensures { result.now ≡ removal_namespace key.now }
{
    if key.kind == Kind::Table {
        other_namespace(key.name.space.as_str())
    } else {
        ""
    }
}

fn show_removal(out: &mut JsonText, key: &Key, version: u64) -> Result<(), AllocError>
    ensures { OnOk result (out.new ≡ with_value (object_of (removal_event key.now version)) out.old) }
{
    out.open_object()?;
    out.text_field("name", key.name.name.as_str())?;
    out.text_field("namespace", removal_namespace(key))?;
    out.digits_field("resourceVersion", version)?;
    out.text_field("type", "DELETED")?;
    out.close_object()
}
