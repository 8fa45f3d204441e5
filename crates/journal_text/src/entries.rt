//! The lines of entries.
ghost use Rattle.std.specs.Prelude.{◌≡◌, IsTrue, IfOk};
ghost use Rattle.std.specs.Option.{option_copied};
ghost use Rattle.resource_types.specs.Objects.{is_of_client};
ghost use Rattle.resource_codec.specs.Storable.{IsStorable};
ghost use Rattle.journal_text.specs.Lines as spec;
ghost use Rattle.journal_text.specs.Texts.{IsTold};

use crate::members::{add, add_number, add_object, add_text, add_word};
use crate::puts::put_text;
use crate::words::{controller_word, truth_word};
use json_tree::{Json, Members, Text};
use resource_types::{Actor, Body, Key, Name, Object, Part, SlotKey};
use std::alloc::{AllocError, Global};
use version_store::Entry;

/// A client put what the text of a manifest asks for.
pub fn asking_line(alloc: Global, moment: u64, text: Text) -> Result<Members, AllocError>
    ensures { IfOk result (λ m. m.entries ≡ spec.asking_line moment text) }
{
    let mut members = Members::new(alloc);
    add_word(alloc, &mut members, "actor", "client")?;
    add_number(alloc, &mut members, "moment", moment)?;
    add(alloc, &mut members, "put", Json::Str(text))?;
    Ok(members)
}

/// A client put this object.
fn put_line(alloc: Global, moment: u64, object: &Object) -> Result<Members, AllocError>
    requires client { IsTrue (is_of_client object.now) }
    requires storable { IsStorable object.now }
    ensures { IfOk result (λ m. m.entries ≡ spec.put_line moment object.now) }
{
    let text = put_text(alloc, object)?;
    asking_line(alloc, moment, text)
}

/// The object that a client removed.
fn key_members(alloc: Global, key: &Key) -> Result<Members, AllocError>
    ensures { IfOk result (λ m. m.entries ≡ spec.key_members key.now) }
{
    let mut members = Members::new(alloc);
    add_word(alloc, &mut members, "kind", key.kind.as_str())?;
    add_text(alloc, &mut members, "name", &key.name.name)?;
    add_text(alloc, &mut members, "namespace", &key.name.space)?;
    Ok(members)
}

/// A client removed what stood under this key.
pub fn removal_line(alloc: Global, moment: u64, key: &Key) -> Result<Members, AllocError>
    ensures { IfOk result (λ m. m.entries ≡ spec.removal_line moment key.now) }
{
    let removed = key_members(alloc, key)?;
    let mut members = Members::new(alloc);
    add_word(alloc, &mut members, "actor", "client")?;
    add_number(alloc, &mut members, "moment", moment)?;
    add_object(alloc, &mut members, "remove", removed)?;
    Ok(members)
}

/// A part that was reported.
fn part_members(alloc: Global, part: &Part) -> Result<Members, AllocError>
    ensures { IfOk result (λ m. m.entries ≡ spec.part_members part.now) }
{
    let mut members = Members::new(alloc);
    add_text(alloc, &mut members, "message", &part.message)?;
    add_text(alloc, &mut members, "reason", &part.reason)?;
    add_word(alloc, &mut members, "status", truth_word(part.truth))?;
    Ok(members)
}

/// A reporter told this of the two parts of a Revision.
pub fn report_line(
    alloc: Global,
    moment: u64,
    revision: &Name,
    resources: &Part,
    container: &Part,
) -> Result<Members, AllocError>
    ensures { IfOk result (λ m. m.entries ≡ spec.report_line moment revision.now resources.now container.now) }
{
    let mut members = Members::new(alloc);
    add_word(alloc, &mut members, "actor", "reporter")?;
    let container = part_members(alloc, container)?;
    add_object(alloc, &mut members, "containerHealthy", container)?;
    add_number(alloc, &mut members, "moment", moment)?;
    add_text(alloc, &mut members, "name", &revision.name)?;
    add_text(alloc, &mut members, "namespace", &revision.space)?;
    let resources = part_members(alloc, resources)?;
    add_object(alloc, &mut members, "resourcesAvailable", resources)?;
    Ok(members)
}

/// A reporter's entry on a Revision, by the body that it put.
fn body_line(
    alloc: Global,
    moment: u64,
    revision: &Name,
    body: &Body,
) -> Result<Members, AllocError>
    ensures { IfOk result (λ m. m.entries ≡ spec.body_line moment revision.now body.now) }
{
    match body {
        Body::Health {
            resources,
            container,
            ..
        } => report_line(alloc, moment, revision, resources, container),
        _ => Ok(Members::new(alloc)),
    }
}

/// A controller wrote what was due to a name at its look, at the moment `read_at`, when it saw so many entries.
pub fn look_line(
    alloc: Global,
    moment: u64,
    by: &SlotKey,
    read_at: u64,
    seen: u64,
) -> Result<Members, AllocError>
    ensures { IfOk result (λ m. m.entries ≡ spec.look_line moment by.now read_at seen) }
{
    let mut members = Members::new(alloc);
    add_word(alloc, &mut members, "actor", controller_word(by.controller))?;
    add_number(alloc, &mut members, "moment", moment)?;
    add_text(alloc, &mut members, "name", &by.name.name)?;
    add_text(alloc, &mut members, "namespace", &by.name.space)?;
    add_number(alloc, &mut members, "readAt", read_at)?;
    add_number(alloc, &mut members, "seen", seen)?;
    Ok(members)
}

/// The same of a controller's entry.
fn controller_line(
    alloc: Global,
    entry: &Entry<Object>,
    by: &SlotKey,
) -> Result<Members, AllocError>
    ensures { IfOk result (λ m. m.entries ≡ spec.controller_line entry.now by.now) }
{
    look_line(alloc, entry.moment, by, entry.read_at, entry.seen)
}

/// A client's entry, by what stands after it.
fn client_line(alloc: Global, entry: &Entry<Object>) -> Result<Members, AllocError>
    requires { (object : Object) → entry.now.object ≡ Some object → IsTrue (is_of_client object) × IsStorable object }
    ensures { IfOk result (λ m. m.entries ≡ spec.client_line entry.now.moment entry.now.key entry.now.object) }
{
    match &entry.object {
        Some(object) => put_line(alloc, entry.moment, object),
        None => removal_line(alloc, entry.moment, &entry.key),
    }
}

/// A reporter's entry, by what stands after it.
fn reporter_line(alloc: Global, entry: &Entry<Object>) -> Result<Members, AllocError>
    ensures { IfOk result (λ m. m.entries ≡ spec.reporter_line entry.now.moment entry.now.key.name entry.now.object) }
{
    match &entry.object {
        Some(object) => body_line(alloc, entry.moment, &entry.key.name, &object.body),
        None => Ok(Members::new(alloc)),
    }
}

/// The members of an entry's line, by who made the entry.
pub(crate) fn line(alloc: Global, entry: &Entry<Object>) -> Result<Members, AllocError>
    requires { IsTold entry.now }
    ensures { IfOk result (λ m. m.entries ≡ spec.line_of entry.now) }
{
    match &entry.actor {
        Actor::Client => client_line(alloc, entry),
        Actor::Reporter => reporter_line(alloc, entry),
        Actor::Controller(by) => controller_line(alloc, entry, by),
    }
}
