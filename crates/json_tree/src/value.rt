//! JSON values.
ghost use Rattle.std.specs.Prelude.{◌≡◌, nat_le, IfOk};
ghost use Rattle.serde_json.specs.Data.{items_depth, members_depth, string};
ghost use Rattle.json_tree.specs.Tree.{data_of, depth_of, items_data, table_data};

use crate::members::Members;
use crate::seq::Seq;
use crate::text::Text;
use std::alloc::{AllocError, Global};

/// A JSON value, with whole numbers of 64 bits alone.
///
/// A value is well formed where each `Int` in it is negative and the names of each object in it rise strictly by
/// bytes. Each JSON value has then one form: `Nat` holds all other whole numbers.
#[derive(Debug, Drop)]
pub enum Json {
    /// `null`.
    Null,
    /// `true` or `false`.
    Bool(bool),
    /// A whole number below 0.
    Int(i64),
    /// A whole number from 0.
    Nat(u64),
    /// A string.
    Str(Text),
    /// An array.
    Arr(Seq<Json>),
    /// An object.
    Obj(Members),
}

impl Json {
    /// A text as a value.
    pub fn text(alloc: Global, text: &str) -> Result<Json, AllocError>
        ensures value { IfOk result (λ json. json ≡ Json.Str text.now) }
        ensures data { IfOk result (λ json. data_of json ≡ string text.now) }
    {
        Ok(Json::Str(Text::new(alloc, text)?))
    }

    /// Whether arrays and objects nest at most `levels` deep. A scalar has depth 0, an array or an object one more
    /// than its deepest member, and 1 if it is empty.
    #[cycle(depth)]
    pub fn fits(&self, levels: usize) -> bool
        ensures { result ≡ nat_le (depth_of self.now) levels }
    {
        match self {
            Json::Arr(items) => levels > 0 && items_fit(items.as_slice(), levels - 1),
            Json::Obj(members) => levels > 0 && members_fit(members.entries(), levels - 1),
            _ => true,
        }
    }
}

#[cycle(depth)]
fn items_fit(items: &[Json], levels: usize) -> bool
    ensures { result ≡ nat_le (items_depth (items_data items.now)) levels }
{
    for item in items {
        if !item.fits(levels) {
            return false;
        }
    }
    true
}

#[cycle(depth)]
fn members_fit(members: &[(Text, Json)], levels: usize) -> bool
    ensures { result ≡ nat_le (members_depth (table_data members.now)) levels }
{
    for member in members {
        if !member.1.fits(levels) {
            return false;
        }
    }
    true
}
