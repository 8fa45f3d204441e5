//! Tables as JSON.
ghost use Rattle.std.specs.Prelude.{◌≡◌, IfOk, map};
ghost use Rattle.resource_codec.specs.Objects.{row_members, row_json, other_namespace, table_members};

use crate::adding::{add_array, add_made, add_number, add_text, add_word};
use crate::statuses::published_jsons;
use json_tree::{Json, Members, Seq};
use resource_types::{Object, Row, Target, decimal_text};
use serve_names::uid_text;
use std::alloc::{AllocError, Global};

fn row_members(alloc: Global, row: &Row) -> Result<Members, AllocError>
    ensures { IfOk result (λ m. m.entries ≡ row_members row.now) }
{
    let mut members = Members::new(alloc);
    add_text(alloc, &mut members, "host", &row.host)?;
    add_number(alloc, &mut members, "percent", Some(row.percent))?;
    add_text(alloc, &mut members, "revisionName", &row.revision)?;
    let uid = uid_text(alloc, row.uid)?;
    add_made(alloc, &mut members, "revisionUid", uid)?;
    add_text(alloc, &mut members, "tag", &row.tag)?;
    Ok(members)
}

fn row_jsons(alloc: Global, rows: &Seq<Row>) -> Result<Seq<Json>, AllocError>
    ensures { IfOk result (λ js. js ≡ map row_json rows.now) }
{
    let mut jsons = Seq::with_capacity(alloc, rows.len())?;
    for row in rows.as_slice() {
        let members = row_members(alloc, row)?;
        jsons.push(Json::Obj(members))?;
    }
    Ok(jsons)
}

/// A namespace where it is not `default`.
pub fn other_namespace(space: &str) -> &str
    ensures { result.now ≡ other_namespace space.now }
{
    if space == "default" { "" } else { space }
}

/// A Table, with its namespace where that is not `default`.
pub fn table_members(
    alloc: Global,
    object: &Object,
    route: u64,
    rows: &Seq<Row>,
    targets: &Seq<Target>,
) -> Result<Members, AllocError>
    ensures { IfOk result (λ m. m.entries ≡ table_members object.now route rows.now targets.now) }
{
    let mut members = Members::new(alloc);
    add_word(alloc, &mut members, "kind", "Table")?;
    add_text(alloc, &mut members, "name", &object.key.name.name)?;
    let space = other_namespace(object.key.name.space.as_str());
    add_word(alloc, &mut members, "namespace", space)?;
    let version = decimal_text(alloc, object.meta.stamp.version)?;
    add_made(alloc, &mut members, "resourceVersion", version)?;
    let uid = uid_text(alloc, route)?;
    add_made(alloc, &mut members, "routeUid", uid)?;
    let row_items = row_jsons(alloc, rows)?;
    add_array(alloc, &mut members, "rows", row_items)?;
    let target_items = published_jsons(alloc, targets)?;
    add_array(alloc, &mut members, "targets", target_items)?;
    Ok(members)
}
