//! The forms of events, and of polls.
ghost use Rattle.std.specs.Prelude.{◌≡◌, ◌≤◌, IsTrue, IfOk};
ghost use Rattle.serde_json.specs.Data.{items_depth};
ghost use Rattle.json_tree.specs.Tree.{is_well_formed, depth_of, items_data, items_are_well};
ghost use Rattle.resource_codec.specs.Written.{object_of};
ghost use Rattle.resource_codec.specs.Objects.{IsWellObject};
ghost use Rattle.resource_codec.specs.Lists.{put_type, put_event, removal_namespace, removal_event, poll_members};

use crate::adding::{add, add_made, add_text, add_word};
use crate::objects::encode;
use crate::tables::other_namespace;
use json_tree::{Json, Members, Seq};
use resource_types::{Key, Kind, Object, decimal_text};
use std::alloc::{AllocError, Global};

/// The event of an entry that put an object: `ADDED` where the entry made it, else `MODIFIED`.
pub fn put_event(alloc: Global, object: &Object, made: bool) -> Result<Json, AllocError>
    ensures form { IfOk result (λ j. j ≡ object_of (put_event object.now made)) }
    ensures well { IsWellObject object.now
        → IfOk result (λ j. IsTrue (is_well_formed j) × (depth_of j ≤ 41)) }
{
    Ok(Json::Obj(put_members(alloc, object, made)?))
}

fn put_type(made: bool) -> &'static str
    ensures { result.now ≡ put_type made }
{
    if made { "ADDED" } else { "MODIFIED" }
}

fn put_members(alloc: Global, object: &Object, made: bool) -> Result<Members, AllocError>
    ensures { IfOk result (λ m. m.entries ≡ put_event object.now made) }
{
    let mut members = Members::new(alloc);
    let shown = encode(alloc, object)?;
    add(alloc, &mut members, "object", shown)?;
    add_word(alloc, &mut members, "type", put_type(made))?;
    Ok(members)
}

/// The event of an entry of a version that removed what stood under the key. That of a Table shows its namespace where
/// it is not `default`.
pub fn removal_event(alloc: Global, key: &Key, version: u64) -> Result<Json, AllocError>
    ensures form { IfOk result (λ j. j ≡ object_of (removal_event key.now version)) }
    ensures well { IfOk result (λ j. IsTrue (is_well_formed j) × (depth_of j ≤ 1)) }
{
    Ok(Json::Obj(removal_members(alloc, key, version)?))
}

fn removal_namespace(key: &Key) -> &str
    ensures { result.now ≡ removal_namespace key.now }
{
    if key.kind == Kind::Table {
        other_namespace(key.name.space.as_str())
    } else {
        ""
    }
}

fn removal_members(alloc: Global, key: &Key, version: u64) -> Result<Members, AllocError>
    ensures { IfOk result (λ m. m.entries ≡ removal_event key.now version) }
{
    let mut members = Members::new(alloc);
    add_text(alloc, &mut members, "name", &key.name.name)?;
    add_word(alloc, &mut members, "namespace", removal_namespace(key))?;
    let digits = decimal_text(alloc, version)?;
    add_made(alloc, &mut members, "resourceVersion", digits)?;
    add_word(alloc, &mut members, "type", "DELETED")?;
    Ok(members)
}

/// What changed: events in the order of the journal, and the version up to which they tell.
pub fn poll_form(alloc: Global, events: Seq<Json>, version: u64) -> Result<Json, AllocError>
    ensures form { IfOk result (λ j. j ≡ object_of (poll_members events version)) }
    ensures well { IsTrue (items_are_well (items_data events)) → items_depth (items_data events) ≤ 41
        → IfOk result (λ j. IsTrue (is_well_formed j) × (depth_of j ≤ 43)) }
{
    Ok(Json::Obj(poll_members(alloc, events, version)?))
}

fn poll_members(alloc: Global, events: Seq<Json>, version: u64) -> Result<Members, AllocError>
    ensures { IfOk result (λ m. m.entries ≡ poll_members events version) }
{
    let mut members = Members::new(alloc);
    add(alloc, &mut members, "events", Json::Arr(events))?;
    add_word(alloc, &mut members, "kind", "Poll")?;
    let digits = decimal_text(alloc, version)?;
    add_made(alloc, &mut members, "resourceVersion", digits)?;
    Ok(members)
}
