//! What a poll of Tables tells.
ghost use Rattle.std.specs.Prelude.{◌≡◌};
ghost use Rattle.gateway_pick.specs.Reading.{Gives};
ghost use Rattle.gateway_pick.specs.Polls as spec;

use crate::error::FollowError;
use crate::reading::{items, object, object_under, version, word, word_or};
use crate::rows::rows_in;
use crate::rules::are_rows;
use crate::tables::{Change, Published};
use json_tree::{Json, Members, Seq, Text};
use resource_types::Name;
use std::alloc::Global;

/// What a poll tells.
#[derive(Drop)]
pub(crate) struct Poll {
    /// What its events do, in their order.
    pub changes: Seq<Change>,
    /// The version up to which it tells.
    pub version: u64,
}

/// That a text is the one that must stand.
fn must_be(text: &str, due: &str) -> Result<(), FollowError>
    ensures { Gives (λ u. u) result (spec.must_be text.now due.now) }
{
    if text == due {
        Ok(())
    } else {
        Err(FollowError::Refused)
    }
}

/// The name that members give; a namespace that is absent is `default`.
#[tactic(auto, unfolding(crate::specs::Polls::name_in))]
fn name_in(alloc: Global, members: &Members) -> Result<Name, FollowError>
    ensures { Gives (λ n. n) result (spec.name_in members.now.entries) }
{
    let name = word(members, "name")?;
    let space = word_or(members, "namespace", "default")?;
    Ok(Name {
        space: Text::new(alloc, space)?,
        name: Text::new(alloc, name)?,
    })
}

/// The Table that members give.
#[tactic(auto, unfolding(crate::specs::Polls::table_in))]
fn table_in(alloc: Global, members: &Members) -> Result<Published, FollowError>
    ensures { Gives (λ t. t) result (spec.table_in members.now.entries) }
{
    must_be(word(members, "kind")?, "Table")?;
    let jsons = items(members, "rows")?;
    let name = name_in(alloc, members)?;
    let rows = rows_in(alloc, jsons)?;
    if are_rows(rows.as_slice()) {
        Ok(Published { name, rows })
    } else {
        Err(FollowError::Refused)
    }
}

/// What an event does.
#[tactic(auto, unfolding(crate::specs::Polls::change_in))]
fn change_in(alloc: Global, json: &Json) -> Result<Change, FollowError>
    ensures { Gives (λ c. c) result (spec.change_in json.now) }
{
    let members = object(json)?;
    match word(members, "type")? {
        "ADDED" | "MODIFIED" => {
            let table = object_under(members, "object")?;
            Ok(Change::Put(table_in(alloc, table)?))
        }
        "DELETED" => Ok(Change::Remove(name_in(alloc, members)?)),
        _ => Err(FollowError::Refused),
    }
}

/// What events do, in their order.
fn changes_in(alloc: Global, jsons: &[Json]) -> Result<Seq<Change>, FollowError>
    ensures { Gives (λ cs. cs) result (spec.changes_in jsons.now) }
{
    let mut changes = Seq::with_capacity(alloc, jsons.len())?;
    for index in 0..jsons.len() {
        let change = change_in(alloc, &jsons[index])?;
        changes.push(change)?;
    }
    Ok(changes)
}

/// What a poll of Tables tells.
#[tactic(auto, unfolding(crate::specs::Polls::poll_in))]
pub(crate) fn poll_in(alloc: Global, json: &Json) -> Result<Poll, FollowError>
    ensures { Gives (λ p. (p.changes, p.version)) result (spec.poll_in json.now) }
{
    let members = object(json)?;
    must_be(word(members, "kind")?, "Poll")?;
    let version = version(members, "resourceVersion")?;
    let events = items(members, "events")?;
    let changes = changes_in(alloc, events)?;
    Ok(Poll { changes, version })
}
