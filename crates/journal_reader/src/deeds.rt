//! What was done, by the members of a line.
ghost use Rattle.std.specs.Prelude.{◌≡◌, IfOk};
ghost use Rattle.journal_reader.specs.Answers.{Reads, Gives};
ghost use Rattle.journal_reader.specs.Deeds as spec;
ghost use Rattle.journal_reader.specs.Deeds.{IsGoodDeed, SaysDeed, SaysLine};

use crate::error::ReadError;
use crate::members::{number, object_under, text, under};
use crate::puts::put_in;
use crate::words::{controller_named, kind_named, truth_named};
use control_rules::Report;
use json_tree::{Json, Members, Text};
use resource_types::{ClientKind, Key, Manifest, Name, Part, SlotKey};
use std::alloc::Global;

/// What was done.
#[derive(Debug, Drop)]
pub enum Deed {
    /// A client put what this manifest asks for.
    Put {
        /// The kind of the object.
        kind: ClientKind,
        /// What is asked for, with its defaults and without a version.
        manifest: Manifest,
    },
    /// A client removed what stood under the key.
    Remove(Key),
    /// A reporter told of a Revision.
    Report(Report),
    /// A controller wrote what was due to a name at its look.
    Write {
        /// The controller and the name.
        key: SlotKey,
        /// The moment of the look.
        read_at: u64,
        /// How many entries it saw.
        seen: u64,
    },
}

/// What the line of an entry says.
#[derive(Debug, Drop)]
pub struct Line {
    /// When the entry was made, in seconds from 1970.
    pub moment: u64,
    /// What was done.
    pub deed: Deed,
}

/// The name that members give.
#[tactic(auto, unfolding(crate::specs::Deeds::name_in))]
fn name_in(alloc: Global, members: &Members) -> Result<Name, ReadError>
    ensures { Gives (λ n. n) result (spec.name_in members.now.entries) }
{
    let name = text(members, "name")?;
    let space = text(members, "namespace")?;
    Ok(Name {
        space: Text::new(alloc, space.as_str())?,
        name: Text::new(alloc, name.as_str())?,
    })
}

/// The key of what a client removed.
#[tactic(auto, unfolding(crate::specs::Deeds::key_in))]
fn key_in(alloc: Global, members: &Members) -> Result<Key, ReadError>
    ensures { Gives (λ k. k) result (spec.key_in members.now.entries) }
{
    let kind = kind_named(text(members, "kind")?)?;
    let name = name_in(alloc, members)?;
    Ok(Key { kind, name })
}

/// A client's removal.
#[tactic(auto, unfolding(crate::specs::Deeds::removal_in))]
fn removal_in(alloc: Global, members: &Members) -> Result<Deed, ReadError>
    ensures { Gives (λ d. d) result (spec.removal_in members.now.entries) }
{
    let removed = object_under(members, "remove")?;
    let key = key_in(alloc, removed)?;
    Ok(Deed::Remove(key))
}

/// A part that was reported.
#[tactic(auto, unfolding(crate::specs::Deeds::part_in))]
fn part_in(alloc: Global, members: &Members) -> Result<Part, ReadError>
    ensures { Gives (λ p. p) result (spec.part_in members.now.entries) }
{
    let message = text(members, "message")?;
    let reason = text(members, "reason")?;
    let truth = truth_named(text(members, "status")?)?;
    Ok(Part {
        truth,
        reason: Text::new(alloc, reason.as_str())?,
        message: Text::new(alloc, message.as_str())?,
    })
}

/// What a reporter told.
#[tactic(auto, unfolding(crate::specs::Deeds::report_in))]
fn report_in(alloc: Global, members: &Members) -> Result<Deed, ReadError>
    ensures { Gives (λ d. d) result (spec.report_in members.now.entries) }
{
    let container = part_in(alloc, object_under(members, "containerHealthy")?)?;
    let revision = name_in(alloc, members)?;
    let resources = part_in(alloc, object_under(members, "resourcesAvailable")?)?;
    Ok(Deed::Report(Report {
        revision,
        resources,
        container,
    }))
}

/// What a controller of this word did.
#[tactic(auto, unfolding(crate::specs::Deeds::write_in))]
fn write_in(alloc: Global, actor: &Text, members: &Members) -> Result<Deed, ReadError>
    ensures { Gives (λ d. d) result (spec.write_in actor.now members.now.entries) }
{
    let controller = controller_named(actor)?;
    let read_at = number(members, "readAt")?;
    let seen = number(members, "seen")?;
    let name = name_in(alloc, members)?;
    let key = SlotKey { controller, name };
    Ok(Deed::Write { key, read_at, seen })
}

/// What was done, unless a client put something.
#[tactic(auto, unfolding(crate::specs::Deeds::other_in))]
fn other_in(alloc: Global, members: &Members) -> Result<Deed, ReadError>
    ensures { Gives (λ d. d) result (spec.other_in members.now.entries) }
{
    let actor = text(members, "actor")?;
    match actor.as_str() {
        "client" => removal_in(alloc, members),
        "reporter" => report_in(alloc, members),
        _ => write_in(alloc, actor, members),
    }
}

/// What was done.
fn deed_in(alloc: Global, members: &Members) -> Result<Deed, ReadError>
    ensures good { IfOk result IsGoodDeed }
    ensures found { (deed : Deed) → SaysDeed members.now.entries deed → Reads result deed }
{
    match under(members, "put") {
        Some(Json::Str(text)) => put_in(alloc, text),
        _ => other_in(alloc, members),
    }
}

/// What a line says, by its members.
pub(crate) fn line_in(alloc: Global, members: &Members) -> Result<Line, ReadError>
    ensures good { IfOk result (λ line. IsGoodDeed line.deed) }
    ensures found { (line : Line) → SaysLine members.now.entries line → Reads result line }
{
    let moment = number(members, "moment")?;
    let deed = deed_in(alloc, members)?;
    Ok(Line { moment, deed })
}
