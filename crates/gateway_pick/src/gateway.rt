//! The gateway.
ghost use Rattle.std.specs.Prelude.{◌≡◌, ◌≢◌, ℕ, [], IfOk, IsErrOf, IsSome, IsTrue, OnOk, OnErr};
ghost use Rattle.std.specs.List.{list_any};
ghost use Rattle.std.specs.Option.{option_copied, is_some};
ghost use Rattle.json_tree.specs.declared.value.Json.{Json};
ghost use Rattle.gateway_pick.specs.Reading.{Gives};
ghost use Rattle.gateway_pick.specs.Gateway.{View, IsJson, told_in, Follows};
ghost use Rattle.gateway_pick.specs.Journals.{IsWhole, Knows, IsPollAfter, told_to};
ghost use Rattle.resource_types.specs.Lookups.{Journal};
ghost use Rattle.gateway_pick.specs.Picks.{has_host, rows_for, pick_of, PicksEvenly};

use crate::error::FollowError;
use crate::picks::{pick_among, rows_for};
use crate::polls::{Poll, poll_in};
use crate::tables::{Published, make_changes};
use json_tree::{Json, JsonError, read_json};
use resource_types::Row;
use std::alloc::Global;
use std::marker::Model;

/// A gateway. Contracts see it as the Tables that it knows, in order of namespace and name, and the version up to which it was told.
#[derive(Drop)]
pub struct Gateway {
    alloc: Global,
    tables: Vec<Published>,
    version: u64,
}

impl Model for Gateway {
    ghost use Rattle.gateway_pick.specs.Gateway.{View};
    ghost use Rattle.gateway_pick.specs.Tables.{AreTables};

    ghost Value = { View };

    ghost view = { λ g. record { tables = g.tables.items; version = g.version } };

    ghost invariant = { λ g. AreTables g.tables.items };
}

/// Why a body that isn't readable isn't followed.
fn unread(error: JsonError) -> FollowError
    ensures { result ≡ FollowError.Refused → error ≢ JsonError.Memory }
{
    match error {
        JsonError::Memory => FollowError::Memory,
        _ => FollowError::Refused,
    }
}

/// The value that a body is the text of.
fn read(alloc: Global, body: &[u8]) -> Result<Json, FollowError>
    ensures json { IfOk result (IsJson body.now) }
    ensures refused { IsErrOf result FollowError.Refused → (json : Json) → ¬ (IsJson body.now json) }
{
    match read_json(alloc, body) {
        Ok(json) => Ok(json),
        Err(error) => Err(unread(error)),
    }
}

/// What a value tells, where its version isn't less than this one.
#[tactic(auto, unfolding(crate::specs::Gateway::told_in))]
fn told_in(alloc: Global, json: &Json, least: u64) -> Result<Poll, FollowError>
    ensures { Gives (λ p. (p.changes, p.version)) result (told_in json.now least) }
{
    let poll = poll_in(alloc, json)?;
    if poll.version < least {
        return Err(FollowError::Refused);
    }
    Ok(poll)
}

/// What a body tells, where its version isn't less than this one.
fn told(alloc: Global, body: &[u8], least: u64) -> Result<Poll, FollowError>
    ensures told { (json : Json) → IsJson body.now json → Gives (λ p. (p.changes, p.version)) result (told_in json least) }
    ensures json { IfOk result (λ _. (json : Json) × IsJson body.now json) }
{
    match read(alloc, body) {
        Ok(json) => told_in(alloc, &json, least),
        Err(error) => Err(error),
    }
}

impl Gateway {
    /// A gateway that knows no Table, at version 0.
    pub fn new(alloc: Global) -> Gateway
        ensures { result ≡ record { tables = []; version = 0 } }
    {
        Gateway {
            alloc,
            tables: Vec::new(alloc),
            version: 0,
        }
    }

    /// The version up to which it was told.
    pub fn version(&self) -> u64
        ensures { result ≡ self.now.version }
    {
        self.version
    }

    /// The Tables that it knows, in order of namespace and name.
    pub fn tables(&self) -> &[Published]
        ensures { result.now ≡ self.now.tables }
    {
        &self.tables
    }

    /// Follows a poll of Tables: what its events put or remove is put or removed, in their order, and the version is the poll's.
    ///
    /// `Refused` comes exactly where the body isn't followed: it isn't readable, it isn't a poll of Tables, a Table in it breaks a
    /// rule, or its version is less than the gateway's. After an error the gateway is as before.
    pub fn follow(&mut self, body: &[u8]) -> Result<(), FollowError>
        ensures ok { OnOk result (Follows body.now self.old self.new) }
        ensures refused { IsErrOf result FollowError.Refused → (new : View) → ¬ (Follows body.now self.old new) }
        ensures err { OnErr result (self.new ≡ self.old) }
        // A gateway that knows the Tables of a journal at its version, and follows the journal's poll, knows them at the poll's.
        ensures knows { (journal : Journal) → IsWhole journal → Knows self.old journal self.old.version
            → IsPollAfter body.now journal self.old.version
            → OnOk result (Knows self.new journal (told_to journal self.old.version)) }
    {
        let poll = told(self.alloc, body, self.version)?;
        self.tables.reserve(poll.changes.len())?;
        make_changes(&mut self.tables, poll.changes.into_vec());
        self.version = poll.version;
        Ok(())
    }

    /// The rows of the first Table, by namespace and name, that has a row with the host; none where no Table has one. `pick_among` picks
    /// among them.
    pub fn rows_for(&self, host: &[u8]) -> &[Row]
        ensures rows { result.now ≡ rows_for host.now self.now.tables }
        ensures evenly { IsTrue (list_any (has_host host.now) self.now.tables)
            → (first : ℕ) → PicksEvenly self.now.tables host.now first }
    {
        rows_for(&self.tables, host)
    }

    /// The row of a host that a number picks. `None` exactly where no row has the host.
    ///
    /// Of any hundred numbers one after another, each row of the host is picked as often as its percent says.
    pub fn pick(&self, host: &[u8], number: u64) -> Option<&Row>
        ensures pick { option_copied result ≡ pick_of self.now.tables host.now number }
        ensures found { is_some result ≡ list_any (has_host host.now) self.now.tables }
        ensures evenly { IsSome result → (first : ℕ) → PicksEvenly self.now.tables host.now first }
    {
        pick_among(rows_for(&self.tables, host), host, number)
    }
}
