//! Reading JSON.
ghost use Rattle.std.specs.Prelude.{◌≡◌, ◌≤◌, IsTrue, IsFalse, IfOk, IfErr, IsErrOf};
ghost use Rattle.serde_json.specs.View.{view, number_view, items_view, members_view};
ghost use Rattle.serde_json.specs.Written.{has_float, items_have_float, members_have_float};
ghost use Rattle.serde_json.specs.Data.{number as numbered};
ghost use Rattle.serde_json.specs.Find.{is_float};
ghost use Rattle.json_tree.specs.Tree.{data_of, items_data, table_data, depth_of, is_well_formed, is_well, items_are_well, values_are_well, rises, is_proper};
ghost use Rattle.json_tree.specs.Answers.{IsReading, IsRefusedFor};

use crate::members::Members;
use crate::seq::Seq;
use crate::text::Text;
use crate::value::Json;
use serde_json::{Map, Number, Value};
use std::alloc::{AllocError, Global};
use thiserror::Error;

/// Why bytes are not read.
#[derive(Clone, Copy, Debug, PartialEq, Eq, Error)]
pub enum JsonError {
    /// `serde_json` has no reading of the bytes.
    #[error("the bytes are no JSON text")]
    Malformed,
    /// There is a reading, and it has a number that is no whole number of 64 bits. `-0` is such a number.
    #[error("a number is no whole number of 64 bits")]
    FloatNumber,
    /// There is a reading with whole numbers alone, and it is more than 32 deep.
    #[error("arrays and objects nest too deep")]
    TooDeep,
    /// Out of memory.
    #[error("out of memory")]
    Memory,
}

impl From<AllocError> for JsonError {
    ghost use Rattle.std.specs.Prelude.{◌≡◌};
    ghost use Rattle.json_tree.specs.declared.read.JsonError.TheVariants.{Memory};

    ghost from_gives = { λ _ error. error ≡ Memory };

    fn from(_error: AllocError) -> JsonError {
        JsonError::Memory
    }
}

/// How deep arrays and objects may nest in a text that is read.
pub const MAX_DEPTH: usize = 32;

/// The value that the bytes are as JSON (RFC 8259). Of members with one name the last counts, and what it replaces
/// is not judged: neither its numbers nor its depth.
///
/// Each error comes exactly where its variant says.
pub fn read_json(alloc: Global, bytes: &[u8]) -> Result<Json, JsonError>
    ensures value { IfOk result (λ json. IsReading bytes.now (data_of json)) }
    ensures well_formed { IfOk result (λ json. IsTrue (is_well_formed json)) }
    ensures depth { IfOk result (λ json. depth_of json ≤ 32) }
    ensures refusal { IfErr result (IsRefusedFor bytes.now) }
{
    let value = match Value::from_slice(alloc, bytes) {
        Ok(value) => value,
        Err(error) if error.is_memory() => return Err(JsonError::Memory),
        Err(_) => return Err(JsonError::Malformed),
    };
    let json = match tree_of(alloc, &value) {
        Ok(json) => json,
        Err(Refusal::Float) => return Err(JsonError::FloatNumber),
        Err(Refusal::Memory) => return Err(JsonError::Memory),
    };
    if json.fits(MAX_DEPTH) {
        Ok(json)
    } else {
        Err(JsonError::TooDeep)
    }
}

// Why a value has no tree.
#[derive(Clone, Copy, Debug)]
enum Refusal {
    Float,
    Memory,
}

impl From<AllocError> for Refusal {
    ghost use Rattle.std.specs.Prelude.{◌≡◌};
    ghost use Rattle.json_tree.specs.declared.read.Refusal.TheVariants.{Memory};

    ghost from_gives = { λ _ refusal. refusal ≡ Memory };

    fn from(_error: AllocError) -> Refusal {
        Refusal::Memory
    }
}

// The value as a tree.
#[cycle(tree)]
fn tree_of(alloc: Global, value: &Value) -> Result<Json, Refusal>
    ensures data { IfOk result (λ json. data_of json ≡ view value.now) }
    ensures well { IfOk result (λ _. IsTrue (is_well (view value.now))) }
    ensures whole { IfOk result (λ _. IsFalse (has_float (view value.now))) }
    ensures float { IsErrOf result Refusal.Float → IsTrue (has_float (view value.now)) }
{
    match value {
        Value::Null => Ok(Json::Null),
        Value::Bool(b) => Ok(Json::Bool(*b)),
        Value::Number(number) => whole_number(number),
        Value::String(text) => Ok(Json::Str(Text::new(alloc, text.as_str())?)),
        Value::Array(items) => Ok(Json::Arr(seq_of(alloc, items)?)),
        Value::Object(members) => Ok(Json::Obj(table_of(alloc, members)?)),
    }
}

// The number, where it is a whole number of 64 bits.
fn whole_number(number: &Number) -> Result<Json, Refusal>
    ensures data { IfOk result (λ json. data_of json ≡ numbered (number_view number.now)) }
    ensures well { IfOk result (λ _. IsTrue (is_proper (number_view number.now))) }
    ensures whole { IfOk result (λ _. IsFalse (is_float (number_view number.now))) }
    ensures float { IsErrOf result Refusal.Float → IsTrue (is_float (number_view number.now)) }
{
    if let Some(n) = number.as_u64() {
        return Ok(Json::Nat(n));
    }
    match number.as_i64() {
        Some(z) => Ok(Json::Int(z)),
        None => Err(Refusal::Float),
    }
}

#[cycle(tree)]
fn seq_of(alloc: Global, items: &Vec<Value>) -> Result<Seq<Json>, Refusal>
    ensures data { IfOk result (λ found. items_data found ≡ items_view items.now.items) }
    ensures well { IfOk result (λ _. IsTrue (items_are_well (items_view items.now.items))) }
    ensures whole { IfOk result (λ _. IsFalse (items_have_float (items_view items.now.items))) }
    ensures float { IsErrOf result Refusal.Float
        → IsTrue (items_have_float (items_view items.now.items)) }
{
    let mut found = Seq::with_capacity(alloc, items.len())?;
    for item in items {
        let json = tree_of(alloc, item)?;
        found.push(json)?;
    }
    Ok(found)
}

// The members of a map rise, since the map keeps them so.
#[cycle(tree)]
fn table_of(alloc: Global, members: &Map<String, Value>) -> Result<Members, Refusal>
    ensures data { IfOk result
        (λ found. table_data found.entries ≡ members_view members.now.entries) }
    ensures rises { IfOk result
        (λ _. IsTrue (rises (members_view members.now.entries))) }
    ensures well { IfOk result
        (λ _. IsTrue (values_are_well (members_view members.now.entries))) }
    ensures whole { IfOk result
        (λ _. IsFalse (members_have_float (members_view members.now.entries))) }
    ensures float { IsErrOf result Refusal.Float
        → IsTrue (members_have_float (members_view members.now.entries)) }
{
    let mut found = Members::with_capacity(alloc, members.len())?;
    for (key, member) in members.iter() {
        let name = Text::new(alloc, key.as_str())?;
        let json = tree_of(alloc, member)?;
        found.add(name, json)?;
    }
    Ok(found)
}
