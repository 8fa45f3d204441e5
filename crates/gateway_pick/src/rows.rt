//! Rows of a Table in a poll.
ghost use Rattle.std.specs.Prelude.{◌≡◌};
ghost use Rattle.gateway_pick.specs.Reading.{Gives};
ghost use Rattle.gateway_pick.specs.Polls as spec;

use crate::error::FollowError;
use crate::reading::{number, object, uid, word, word_or};
use json_tree::{Json, Seq, Text};
use resource_types::Row;
use std::alloc::Global;

/// The row that a value is.
#[tactic(auto, unfolding(crate::specs::Polls::row_in))]
fn row_in(alloc: Global, json: &Json) -> Result<Row, FollowError>
    ensures { Gives (λ r. r) result (spec.row_in json.now) }
{
    let members = object(json)?;
    let host = word(members, "host")?;
    let percent = number(members, "percent")?;
    let revision = word(members, "revisionName")?;
    let uid = uid(members, "revisionUid")?;
    let tag = word_or(members, "tag", "")?;
    Ok(Row {
        tag: Text::new(alloc, tag)?,
        host: Text::new(alloc, host)?,
        revision: Text::new(alloc, revision)?,
        uid,
        percent,
    })
}

/// The rows that values are.
pub(crate) fn rows_in(alloc: Global, jsons: &[Json]) -> Result<Seq<Row>, FollowError>
    ensures { Gives (λ rs. rs) result (spec.rows_in jsons.now) }
{
    let mut rows = Seq::with_capacity(alloc, jsons.len())?;
    for index in 0..jsons.len() {
        let row = row_in(alloc, &jsons[index])?;
        rows.push(row)?;
    }
    Ok(rows)
}
