//! Pod specs: two numbers among the members that are kept as they were given.
ghost use Rattle.std.specs.Prelude.{◌≡◌, Some, IfOk, OnOk};
ghost use Rattle.resource_codec.specs.Written.{object_of, number_field, pod_members};
ghost use Rattle.object_writer.specs.Tokens.{with_value, with_field, WritesUpTo};

use crate::places::{entries_behind, place_before};
use crate::text::JsonText;
use crate::values::write_members;
use json_tree::{Json, Text};
use resource_types::PodSpec;
use std::alloc::AllocError;

// Writes the members up to a number, if there is one, and the number; it gives those that are left.
fn write_up_to<'a>(
    out: &mut JsonText,
    members: &'a [(Text, Json)],
    name: &str,
    number: Option<u64>,
) -> Result<&'a [(Text, Json)], AllocError>
    ensures { IfOk result
        (λ left. WritesUpTo name.now (number_field number) members.now left.now out.old out.new) }
{
    if number.is_none() {
        return Ok(members);
    }
    let place = place_before(members, name);
    write_members(out, &members[..place])?;
    out.number_field(name, number)?;
    Ok(entries_behind(&members[place..], name))
}

/// Writes a pod spec.
pub fn write_pod(out: &mut JsonText, spec: &PodSpec) -> Result<(), AllocError>
    ensures { OnOk result (out.new ≡ with_value (object_of (pod_members spec.now)) out.old) }
{
    out.open_object()?;
    let members = spec.rest.entries();
    let members = write_up_to(out, members, "containerConcurrency", spec.concurrency)?;
    let members = write_up_to(out, members, "timeoutSeconds", spec.timeout)?;
    write_members(out, members)?;
    out.close_object()
}

/// Writes a pod spec under a name.
pub fn pod_field(out: &mut JsonText, name: &str, spec: &PodSpec) -> Result<(), AllocError>
    ensures { OnOk result (out.new ≡ with_field name.now (Some (object_of (pod_members spec.now))) out.old) }
{
    out.name(name)?;
    write_pod(out, spec)
}
