//! Values, and those that are kept as they were given.
ghost use Rattle.std.specs.Prelude.{◌≡◌, [], ◌∷◌, ◌++◌, OnOk, decimal};
ghost use Rattle.json.specs.Token.{end_array, end_object};
ghost use Rattle.json_tree.specs.declared.value.Json.{Null, Bool, Int, Nat, Str};
ghost use Rattle.object_writer.specs.Tokens.{with_value, with_values, with_members};

use crate::text::JsonText;
use json_tree::{Json, Text};
use std::alloc::AllocError;

// Writes the value.
#[cycle(given)]
fn write_value(out: &mut JsonText, json: &Json) -> Result<(), AllocError>
    ensures { OnOk result (out.new ≡ with_value json.now out.old) }
{
    match json {
        Json::Null => out.null(),
        Json::Bool(truth) => out.truth(*truth),
        Json::Int(number) => out.signed(*number),
        Json::Nat(number) => out.number(*number),
        Json::Str(text) => out.text(text.as_str()),
        Json::Arr(items) => {
            out.open_array()?;
            write_items(out, items.as_slice())
        }
        Json::Obj(members) => {
            out.open_object()?;
            write_members(out, members.entries())?;
            out.close_object()
        }
    }
}

// Writes the items, and the bracket that closes the array.
#[cycle(given)]
fn write_items(out: &mut JsonText, items: &[Json]) -> Result<(), AllocError>
    ensures { OnOk result (out.new ≡ with_values items.now out.old ++ end_array ∷ []) }
{
    for item in items {
        write_value(out, item)?;
    }
    out.close_array()
}

/// Writes the members.
#[cycle(given)]
pub fn write_members(out: &mut JsonText, members: &[(Text, Json)]) -> Result<(), AllocError>
    ensures { OnOk result (out.new ≡ with_members members.now out.old) }
{
    for member in members {
        out.name(member.0.as_str())?;
        write_value(out, &member.1)?;
    }
    Ok(())
}
