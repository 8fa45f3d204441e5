//! Targets, as they are asked for and as they are published.
ghost use Rattle.std.specs.Prelude.{◌≡◌, OnOk, map};
ghost use Rattle.resource_codec.specs.Written.{target_fields, target_json, array_field};
ghost use Rattle.resource_codec.specs.Objects.{published_json};
ghost use Rattle.object_writer.specs.Tokens.{with_value, with_field, with_fields};

use crate::text::JsonText;
use json_tree::Seq;
use resource_types::Target;
use std::alloc::AllocError;

// Writes the fields of a target but its address.
fn target_fields(out: &mut JsonText, target: &Target) -> Result<(), AllocError>
    ensures { OnOk result (out.new ≡ with_fields (target_fields target.now) out.old) }
{
    out.text_field("configurationName", target.configuration.as_str())?;
    out.truth_field("latestRevision", target.latest)?;
    out.number_field("percent", target.percent)?;
    out.text_field("revisionName", target.revision.as_str())?;
    out.text_field("tag", target.tag.as_str())
}

// Writes a target without its address.
fn write_target(out: &mut JsonText, target: &Target) -> Result<(), AllocError>
    ensures { OnOk result (out.new ≡ with_value (target_json target.now) out.old) }
{
    out.open_object()?;
    target_fields(out, target)?;
    out.close_object()
}

// Writes a target with its address.
fn write_published(out: &mut JsonText, target: &Target) -> Result<(), AllocError>
    ensures { OnOk result (out.new ≡ with_value (published_json target.now) out.old) }
{
    out.open_object()?;
    target_fields(out, target)?;
    out.text_field("url", target.url.as_str())?;
    out.close_object()
}

/// Writes targets as they are asked for, if there are any.
pub fn traffic_field(
    out: &mut JsonText,
    name: &str,
    targets: &Seq<Target>,
) -> Result<(), AllocError>
    ensures { OnOk result (out.new ≡ with_field name.now (array_field (map target_json targets.now)) out.old) }
{
    if targets.is_empty() {
        return Ok(());
    }
    out.name(name)?;
    out.open_array()?;
    for target in targets.as_slice() {
        write_target(out, target)?;
    }
    out.close_array()
}

/// Writes targets as they are published, if there are any.
pub fn published_field(
    out: &mut JsonText,
    name: &str,
    targets: &Seq<Target>,
) -> Result<(), AllocError>
    ensures { OnOk result (out.new ≡ with_field name.now (array_field (map published_json targets.now)) out.old) }
{
    if targets.is_empty() {
        return Ok(());
    }
    out.name(name)?;
    out.open_array()?;
    for target in targets.as_slice() {
        write_published(out, target)?;
    }
    out.close_array()
}
