//! The Tables that a gateway knows.
ghost use Rattle.std.specs.Prelude.{◌≡◌, ◌+◌, ◌≤◌, ◌<◌, length};
ghost use Rattle.std.specs.Vec.{vec_len, vec_capacity};
ghost use Rattle.version_store.specs.Index.{AreInOrder};
ghost use Rattle.gateway_pick.specs.Tables.{name_cmp, name_of, changed, all_changed};

use crate::search::search;
use json_tree::Seq;
use resource_types::{Name, Row};

/// A Table as a gateway knows it.
#[derive(Drop)]
pub struct Published {
    /// The Table's name, which is that of its Route.
    pub name: Name,
    /// The rows, in their order.
    pub rows: Seq<Row>,
}

/// What an event does to the Tables.
#[derive(Drop)]
pub(crate) enum Change {
    /// The Table is put, in place of the one of its name.
    Put(Published),
    /// The Table of the name is removed.
    Remove(Name),
}

/// Puts a Table, for which there is room.
fn put(tables: &mut Vec<Published>, table: Published)
    requires ordered { AreInOrder name_of name_cmp tables.old.items }
    requires room { vec_len tables.old + 1 ≤ vec_capacity tables.old }
    ensures tables { tables.new.items ≡ changed (Change.Put table) tables.old.items }
    ensures len { vec_len tables.new ≤ vec_len tables.old + 1 }
    ensures capacity { vec_capacity tables.new ≡ vec_capacity tables.old }
{
    match search(tables, &table.name) {
        Ok(place) => tables[place] = table,
        Err(place) => match tables.insert(place, table) {
            Ok(()) => {}
            Err(_) => unreachable!(),
        },
    }
}

/// Removes the Table of a name, if there is one.
fn remove(tables: &mut Vec<Published>, name: Name)
    requires ordered { AreInOrder name_of name_cmp tables.old.items }
    ensures tables { tables.new.items ≡ changed (Change.Remove name) tables.old.items }
    ensures len { vec_len tables.new ≤ vec_len tables.old }
    ensures capacity { vec_capacity tables.new ≡ vec_capacity tables.old }
{
    if let Ok(place) = search(tables, &name) {
        let _table = tables.remove(place);
    }
}

/// Makes a change, for which there is room.
fn make_change(tables: &mut Vec<Published>, change: Change)
    requires ordered { AreInOrder name_of name_cmp tables.old.items }
    requires room { vec_len tables.old + 1 ≤ vec_capacity tables.old }
    ensures tables { tables.new.items ≡ changed change tables.old.items }
    ensures len { vec_len tables.new ≤ vec_len tables.old + 1 }
    ensures capacity { vec_capacity tables.new ≡ vec_capacity tables.old }
{
    match change {
        Change::Put(table) => put(tables, table),
        Change::Remove(name) => remove(tables, name),
    }
}

/// Makes changes in their order. There is room for all of them.
pub(crate) fn make_changes(tables: &mut Vec<Published>, changes: Vec<Change>)
    requires ordered { AreInOrder name_of name_cmp tables.old.items }
    requires room { vec_len tables.old + vec_len changes ≤ vec_capacity tables.old }
    ensures tables { tables.new.items ≡ all_changed changes.items tables.old.items }
{
    for change in changes {
        make_change(tables, change);
    }
}
