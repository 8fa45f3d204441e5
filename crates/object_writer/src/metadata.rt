//! The metadata of objects.
ghost use Rattle.std.specs.Prelude.{◌≡◌, codes, OnOk};
ghost use Rattle.resource_codec.specs.Written.{object_of, object_field, array_field, metadata_members};
ghost use Rattle.resource_codec.specs.Objects.{owner_members, owners_of, object_metadata};
ghost use Rattle.object_writer.specs.Tokens.{with_value, with_field};
ghost use Rattle.object_writer.specs.Documents.{body_labels, body_annotations};

use crate::labels::{annotations_field, labels_field};
use crate::statuses::shown_moment;
use crate::text::JsonText;
use resource_types::{Object, Owner, api_version};
use serve_names::uid_text;
use std::alloc::{AllocError, Global};

fn write_owner(alloc: Global, out: &mut JsonText, owner: &Owner) -> Result<(), AllocError>
    ensures { OnOk result (out.new ≡ with_value (object_of (owner_members owner.now)) out.old) }
{
    let uid = uid_text(alloc, owner.uid)?;
    out.open_object()?;
    out.text_field("apiVersion", api_version())?;
    out.truth_field("controller", Some(true))?;
    out.text_field("kind", owner.kind.as_str())?;
    out.text_field("name", owner.name.as_str())?;
    out.text_field("uid", uid.as_str())?;
    out.close_object()
}

fn owner_field(alloc: Global, out: &mut JsonText, owner: &Option<Owner>) -> Result<(), AllocError>
    ensures { OnOk result (out.new ≡ with_field (codes "ownerReferences") (array_field (owners_of owner.now)) out.old) }
{
    match owner {
        Some(owner) => {
            out.name("ownerReferences")?;
            out.open_array()?;
            write_owner(alloc, out, owner)?;
            out.close_array()
        }
        None => Ok(()),
    }
}

/// Writes the metadata of an object.
pub fn metadata_field(alloc: Global, out: &mut JsonText, object: &Object) -> Result<(), AllocError>
    ensures { OnOk result (out.new ≡ with_field (codes "metadata") (object_field (metadata_members (object_metadata object.now
        (body_labels object.now object.now.body) (body_annotations object.now object.now.body)))) out.old) }
{
    let stamp = object.meta.stamp;
    let created = shown_moment(alloc, stamp.created)?;
    let uid = uid_text(alloc, stamp.uid)?;
    out.name("metadata")?;
    out.open_object()?;
    annotations_field(alloc, out, object)?;
    out.text_field("creationTimestamp", created.as_str())?;
    out.number_field("generation", Some(stamp.generation))?;
    labels_field(out, object)?;
    out.text_field("name", object.key.name.name.as_str())?;
    out.text_field("namespace", object.key.name.space.as_str())?;
    owner_field(alloc, out, &object.meta.owner)?;
    out.digits_field("resourceVersion", stamp.version)?;
    out.text_field("uid", uid.as_str())?;
    out.close_object()
}
