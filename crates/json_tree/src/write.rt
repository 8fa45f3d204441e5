//! Writing JSON, and the laws of reading what was written.
ghost use Rattle.std.specs.Prelude.{◌≡◌, ◌≤◌, ◌↔◌, IsTrue, IsFalse, Some, IfOk, IfErr, OnOk, IsUtf8};
ghost use Rattle.serde_json.specs.Read.{read};
ghost use Rattle.serde_json.specs.Written.{has_float, compact_text, WritesValue, WritesItems, WritesMembers};
ghost use Rattle.json_tree.specs.Tree.{data_of, items_data, table_data, is_well_formed, items_are_well, values_are_well, rises, depth_of};

use crate::read::{JsonError, read_json};
use crate::text::Text;
use crate::value::Json;
use json::Writer;
use std::alloc::{AllocError, Global};

/// How deep arrays and objects may nest in a value that is written.
pub const MAX_WRITTEN_DEPTH: usize = 64;

/// The memory, in bytes, that a text begins with: most objects are no longer.
const FIRST_ROOM: usize = 512;

/// The compact text that `serde_json` writes of a well-formed value: no blanks, and names in the order of their bytes.
///
/// It reads as that value again: see [`reads_back`].
pub fn write_json(alloc: Global, json: &Json) -> Result<Vec<u8>, AllocError>
    requires well { IsTrue (is_well_formed json.now) }
    requires depth { depth_of json.now ≤ 64 }
    ensures text { IfOk result (λ bytes. bytes.items ≡ compact_text (data_of json.now)) }
    ensures utf8 { IfOk result (λ bytes. IsUtf8 bytes.items) }
    ensures reads_back { IfOk result (λ bytes. read bytes.items ≡ Some (data_of json.now)) }
    ensures whole { IfOk result (λ _. IsFalse (has_float (data_of json.now))) }
{
    let mut out = Writer::new(Vec::with_capacity(alloc, FIRST_ROOM)?);
    write_value(json, &mut out)?;
    Ok(out.into_inner())
}

/// The law of the round trip: a well-formed value that is at most 32 deep is read again from what was written of it.
pub fn reads_back(alloc: Global, json: &Json) -> Result<Json, JsonError>
    requires well { IsTrue (is_well_formed json.now) }
    requires depth { depth_of json.now ≤ 32 }
    ensures same { IfOk result (λ again. again ≡ json.now) }
    ensures memory { IfErr result (λ error. error ≡ JsonError.Memory) }
{
    let bytes = write_json(alloc, json)?;
    read_json(alloc, &bytes)
}

/// The law that texts tell values apart: two well-formed values that are at most 64 deep have the same text exactly
/// where they are equal.
pub fn have_same_text(alloc: Global, one: &Json, two: &Json) -> Result<bool, AllocError>
    requires one_well { IsTrue (is_well_formed one.now) }
    requires two_well { IsTrue (is_well_formed two.now) }
    requires one_depth { depth_of one.now ≤ 64 }
    requires two_depth { depth_of two.now ≤ 64 }
    ensures text { IfOk result
        (λ same. IsTrue same ↔ (compact_text (data_of one.now) ≡ compact_text (data_of two.now))) }
    ensures value { IfOk result (λ same. IsTrue same ↔ (one.now ≡ two.now)) }
{
    let one_text = write_json(alloc, one)?;
    let two_text = write_json(alloc, two)?;
    Ok(one_text == two_text)
}

// Writes the tokens of the value.
#[cycle(write)]
fn write_value(json: &Json, out: &mut Writer) -> Result<(), AllocError>
    requires { IsTrue (is_well_formed json.now) }
    ensures ok { OnOk result (WritesValue (data_of json.now) out.old.tokens out.new.tokens) }
    ensures before { out.new.before ≡ out.old.before }
{
    match json {
        Json::Null => out.null(),
        Json::Bool(b) => out.boolean(*b),
        Json::Int(z) => out.i64(*z),
        Json::Nat(n) => out.u64(*n),
        Json::Str(text) => out.string(text.as_str()),
        Json::Arr(items) => {
            out.begin_array()?;
            write_items(items.as_slice(), out)
        }
        Json::Obj(members) => {
            out.begin_object()?;
            write_members(members.entries(), out)
        }
    }
}

// Writes the items, and the bracket that closes the array.
#[cycle(write)]
fn write_items(items: &[Json], out: &mut Writer) -> Result<(), AllocError>
    requires { IsTrue (items_are_well (items_data items.now)) }
    ensures ok { OnOk result (WritesItems (items_data items.now) out.old.tokens out.new.tokens) }
    ensures before { out.new.before ≡ out.old.before }
{
    for item in items {
        write_value(item, out)?;
    }
    out.end_array()
}

// Writes the members, and the brace that closes the object.
#[cycle(write)]
fn write_members(members: &[(Text, Json)], out: &mut Writer) -> Result<(), AllocError>
    requires rises { IsTrue (rises (table_data members.now)) }
    requires well { IsTrue (values_are_well (table_data members.now)) }
    ensures ok { OnOk result (WritesMembers (table_data members.now) out.old.tokens out.new.tokens) }
    ensures before { out.new.before ≡ out.old.before }
{
    for member in members {
        out.key(member.0.as_str())?;
        write_value(&member.1, out)?;
    }
    out.end_object()
}
