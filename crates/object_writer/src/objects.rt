//! Objects, by the kind of their bodies.
ghost use Rattle.std.specs.Prelude.{◌≡◌, ◌∷◌, ◌++◌, [], Some, codes, IfOk, OnOk, IsUtf8};
ghost use Rattle.serde_json.specs.Written.{compact_text};
ghost use Rattle.json.specs.Token.{begin_object, end_object, key};
ghost use Rattle.json_tree.specs.Tree.{data_of};
ghost use Rattle.resource_codec.specs.Objects.{encoded, status_json};
ghost use Rattle.object_writer.specs.Tokens.{with_value, with_field, with_fields};
ghost use Rattle.object_writer.specs.Documents.{head_fields};

use crate::metadata::metadata_field;
use crate::pods::write_pod;
use crate::statuses::write_status;
use crate::tables::write_table;
use crate::templates::{configuration_spec, route_spec, service_spec};
use crate::text::JsonText;
use resource_types::{Body, Object, ObjectStatus, api_version};
use std::alloc::{AllocError, Global};

/// The text of what is shown of an object: that of its JSON value, which isn't made.
pub fn write_object(alloc: Global, object: &Object) -> Result<Vec<u8>, AllocError>
    ensures text { IfOk result (λ bytes. bytes.items ≡ compact_text (data_of (encoded object.now))) }
    ensures utf8 { IfOk result (λ bytes. IsUtf8 bytes.items) }
{
    let mut out = JsonText::new(alloc)?;
    show_object(alloc, &mut out, object)?;
    Ok(out.into_bytes())
}

/// Writes what is shown of an object.
pub fn show_object(alloc: Global, out: &mut JsonText, object: &Object) -> Result<(), AllocError>
    ensures { OnOk result (out.new ≡ with_value (encoded object.now) out.old) }
{
    match &object.body {
        Body::Service {
            template,
            traffic,
            status,
        } => {
            write_head(alloc, out, object)?;
            service_spec(out, template, traffic)?;
            write_tail(alloc, out, status)
        }
        Body::Configuration { template, status } => {
            write_head(alloc, out, object)?;
            configuration_spec(out, template)?;
            write_tail(alloc, out, status)
        }
        Body::Revision { spec, status, .. } => {
            write_head(alloc, out, object)?;
            write_pod(out, spec)?;
            write_tail(alloc, out, status)
        }
        Body::Route { traffic, status } => {
            write_head(alloc, out, object)?;
            route_spec(out, traffic)?;
            write_tail(alloc, out, status)
        }
        Body::Health { .. } => out.null(),
        Body::Table {
            route,
            rows,
            targets,
        } => write_table(alloc, out, object, *route, rows, targets),
    }
}

// Writes a document up to its spec, and the name of that.
fn write_head(alloc: Global, out: &mut JsonText, object: &Object) -> Result<(), AllocError>
    ensures { OnOk result (out.new
        ≡ with_fields (head_fields object.now) (out.old ++ begin_object ∷ []) ++ key (codes "spec") ∷ []) }
{
    out.open_object()?;
    out.text_field("apiVersion", api_version())?;
    out.text_field("kind", object.key.kind.as_str())?;
    metadata_field(alloc, out, object)?;
    out.name("spec")
}

// Writes the status, and the brace that closes the document.
fn write_tail(alloc: Global, out: &mut JsonText, status: &ObjectStatus) -> Result<(), AllocError>
    ensures { OnOk result (out.new ≡ with_field (codes "status") (Some (status_json status.now)) out.old ++ end_object ∷ []) }
{
    out.name("status")?;
    write_status(alloc, out, status)?;
    out.close_object()
}
