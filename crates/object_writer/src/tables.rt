//! Tables, and their rows.
ghost use Rattle.std.specs.Prelude.{◌≡◌, codes, OnOk, map};
ghost use Rattle.resource_codec.specs.Written.{array_field};
ghost use Rattle.resource_codec.specs.Objects.{row_json, other_namespace, table_json};
ghost use Rattle.object_writer.specs.Tokens.{with_value, with_field};

use crate::targets::published_field;
use crate::text::JsonText;
use json_tree::Seq;
use resource_types::{Object, Row, Target};
use serve_names::uid_text;
use std::alloc::{AllocError, Global};

fn write_row(alloc: Global, out: &mut JsonText, row: &Row) -> Result<(), AllocError>
    ensures { OnOk result (out.new ≡ with_value (row_json row.now) out.old) }
{
    let uid = uid_text(alloc, row.uid)?;
    out.open_object()?;
    out.text_field("host", row.host.as_str())?;
    out.number_field("percent", Some(row.percent))?;
    out.text_field("revisionName", row.revision.as_str())?;
    out.text_field("revisionUid", uid.as_str())?;
    out.text_field("tag", row.tag.as_str())?;
    out.close_object()
}

fn rows_field(alloc: Global, out: &mut JsonText, rows: &Seq<Row>) -> Result<(), AllocError>
    ensures { OnOk result (out.new ≡ with_field (codes "rows") (array_field (map row_json rows.now)) out.old) }
{
    if rows.is_empty() {
        return Ok(());
    }
    out.name("rows")?;
    out.open_array()?;
    for row in rows.as_slice() {
        write_row(alloc, out, row)?;
    }
    out.close_array()
}

/// A namespace where it is not `default`.
pub fn other_namespace(space: &str) -> &str
    ensures { result.now ≡ other_namespace space.now }
{
    if space == "default" { "" } else { space }
}

/// Writes a Table: its form is flat, with neither metadata nor spec.
pub fn write_table(
    alloc: Global,
    out: &mut JsonText,
    object: &Object,
    route: u64,
    rows: &Seq<Row>,
    targets: &Seq<Target>,
) -> Result<(), AllocError>
    ensures { OnOk result (out.new ≡ with_value (table_json object.now route rows.now targets.now) out.old) }
{
    let uid = uid_text(alloc, route)?;
    out.open_object()?;
    out.text_field("kind", "Table")?;
    out.text_field("name", object.key.name.name.as_str())?;
    let space = other_namespace(object.key.name.space.as_str());
    out.text_field("namespace", space)?;
    out.digits_field("resourceVersion", object.meta.stamp.version)?;
    out.text_field("routeUid", uid.as_str())?;
    rows_field(alloc, out, rows)?;
    published_field(out, "targets", targets)?;
    out.close_object()
}
