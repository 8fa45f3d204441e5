//! Reading one member of an object: its value, or that the line isn't read.
ghost use Rattle.std.specs.Prelude.{◌≡◌};
ghost use Rattle.std.specs.Option.{option_copied};
ghost use Rattle.json_tree.specs.Tree.{find};
ghost use Rattle.json_tree.specs.declared.value.Json.TheViews.{out-Json};
ghost use Rattle.resource_codec.specs.Reading.{under};
ghost use Rattle.journal_reader.specs.Answers.{IsJsonOf, Gives};
ghost use Rattle.journal_reader.specs.Members as spec;

use crate::error::ReadError;
use json_tree::{Json, Members, Text};
use manifest_intake::read_body;
use std::alloc::Global;

/// The value that the bytes are the text of.
pub(crate) fn json_in(alloc: Global, bytes: &[u8]) -> Result<Json, ReadError>
    ensures { IsJsonOf bytes.now result }
{
    match read_body(alloc, bytes)? {
        Some(json) => Ok(json),
        None => Err(ReadError::Refused),
    }
}

/// What stands under a name, if anything does.
pub(crate) fn under<'a>(members: &'a Members, name: &str) -> Option<&'a Json>
    ensures { option_copied result ≡ find name.now members.now.entries }
{
    members.get(name)
}

/// The members of a value, which must be an object.
pub(crate) fn object(json: &Json) -> Result<&Members, ReadError>
    ensures { Gives (λ m. m.now.entries) result (spec.object (out-Json json.now)) }
{
    match json {
        Json::Obj(members) => Ok(members),
        _ => Err(ReadError::Refused),
    }
}

/// The members of the object under a name.
pub(crate) fn object_under<'a>(members: &'a Members, name: &str) -> Result<&'a Members, ReadError>
    ensures { Gives (λ m. m.now.entries) result (spec.object (under name.now members.now.entries)) }
{
    match under(members, name) {
        Some(Json::Obj(members)) => Ok(members),
        _ => Err(ReadError::Refused),
    }
}

/// The text under a name, which may be empty.
pub(crate) fn text<'a>(members: &'a Members, name: &str) -> Result<&'a Text, ReadError>
    ensures { Gives (λ t. t.now) result (spec.text (under name.now members.now.entries)) }
{
    match under(members, name) {
        Some(Json::Str(text)) => Ok(text),
        _ => Err(ReadError::Refused),
    }
}

/// The number under a name.
pub(crate) fn number(members: &Members, name: &str) -> Result<u64, ReadError>
    ensures { Gives (λ n. n) result (spec.number (under name.now members.now.entries)) }
{
    match under(members, name) {
        Some(Json::Nat(number)) => Ok(*number),
        _ => Err(ReadError::Refused),
    }
}
