//! Reading one field of an object: its value, or that the field is wrong. A null counts as absent.
ghost use Rattle.std.specs.Prelude.{◌≡◌, IfOk};
ghost use Rattle.std.specs.Option.{option_copied};
ghost use Rattle.json_tree.specs.Tree.{find};
ghost use Rattle.resource_codec.specs.Reading.{Gives, entries_of, items_of, layer, under, object as object_at, text as text_at, optional_object as optional_object_at, optional_text as optional_text_at, optional_number as optional_number_at, optional_truth as optional_truth_at, optional_array as optional_array_at, optional_texts as optional_texts_at, texts_in, rest_of, is_rest, is_null};
ghost use Rattle.json_tree.specs.declared.value.Json.TheViews.{out-Json};

use crate::fields::{DecodeError, Field};
use json_tree::{Json, Members, Seq, Table, Text};
use std::alloc::{AllocError, Global};

fn under<'a>(members: Option<&'a Members>, name: &str) -> Option<&'a Json>
    ensures { option_copied result ≡ find name.now (entries_of members.entry) }
{
    match members {
        Some(members) => members.get(name),
        None => None,
    }
}

/// The members of a value, which must be an object.
pub fn object(json: &Json, field: Field) -> Result<&Members, DecodeError>
    ensures { Gives (λ m. m.now.entries) result (object_at field (out-Json json.now)) }
{
    match json {
        Json::Obj(members) => Ok(members),
        _ => Err(DecodeError::Shape(field)),
    }
}

/// The members of the object under a name, which must be there.
pub fn object_under<'a>(
    members: Option<&'a Members>,
    name: &str,
    field: Field,
) -> Result<&'a Members, DecodeError>
    ensures { Gives (λ m. m.now.entries) result (object_at field (under name.now (entries_of members.entry))) }
{
    match under(members, name) {
        Some(Json::Obj(members)) => Ok(members),
        _ => Err(DecodeError::Shape(field)),
    }
}

/// A copy of the text under a name, which must be there.
pub fn text(
    alloc: Global,
    members: Option<&Members>,
    name: &str,
    field: Field,
) -> Result<Text, DecodeError>
    ensures { Gives (λ t. t) result (text_at field (under name.now (entries_of members.entry))) }
{
    match under(members, name) {
        Some(Json::Str(text)) => Ok(text.copy(alloc)?),
        _ => Err(DecodeError::Shape(field)),
    }
}

/// A copy of the text under a name, empty where none is there.
pub fn optional_text(
    alloc: Global,
    members: Option<&Members>,
    name: &str,
    field: Field,
) -> Result<Text, DecodeError>
    ensures { Gives (λ t. t) result (optional_text_at field (under name.now (entries_of members.entry))) }
{
    match under(members, name) {
        Some(Json::Str(text)) => Ok(text.copy(alloc)?),
        Some(Json::Null) | None => Ok(Text::new(alloc, "")?),
        _ => Err(DecodeError::Shape(field)),
    }
}

/// The members of the object under a name, if one is there. An empty text counts as absent here, and in all calls below.
pub fn optional_object<'a>(
    members: Option<&'a Members>,
    name: &str,
    field: Field,
) -> Result<Option<&'a Members>, DecodeError>
    ensures { Gives entries_of result (optional_object_at field (under name.now (entries_of members.entry))) }
{
    match under(members, name) {
        Some(Json::Obj(members)) => Ok(Some(members)),
        Some(Json::Null) | None => Ok(None),
        Some(Json::Str(text)) if text.is_empty() => Ok(None),
        _ => Err(DecodeError::Shape(field)),
    }
}

/// The number under a name, if one is there.
pub fn optional_number(
    members: Option<&Members>,
    name: &str,
    field: Field,
) -> Result<Option<u64>, DecodeError>
    ensures { Gives (λ n. n) result (optional_number_at field (under name.now (entries_of members.entry))) }
{
    match under(members, name) {
        Some(Json::Nat(number)) => Ok(Some(*number)),
        Some(Json::Null) | None => Ok(None),
        Some(Json::Str(text)) if text.is_empty() => Ok(None),
        _ => Err(DecodeError::Shape(field)),
    }
}

/// What is true or false under a name, if it is there.
pub fn optional_truth(
    members: Option<&Members>,
    name: &str,
    field: Field,
) -> Result<Option<bool>, DecodeError>
    ensures { Gives (λ b. b) result (optional_truth_at field (under name.now (entries_of members.entry))) }
{
    match under(members, name) {
        Some(Json::Bool(truth)) => Ok(Some(*truth)),
        Some(Json::Null) | None => Ok(None),
        Some(Json::Str(text)) if text.is_empty() => Ok(None),
        _ => Err(DecodeError::Shape(field)),
    }
}

/// The items of the array under a name, if one is there.
pub fn optional_array<'a>(
    members: Option<&'a Members>,
    name: &str,
    field: Field,
) -> Result<Option<&'a Seq<Json>>, DecodeError>
    ensures { Gives items_of result (optional_array_at field (under name.now (entries_of members.entry))) }
{
    match under(members, name) {
        Some(Json::Arr(items)) => Ok(Some(items)),
        Some(Json::Null) | None => Ok(None),
        Some(Json::Str(text)) if text.is_empty() => Ok(None),
        _ => Err(DecodeError::Shape(field)),
    }
}

/// Copies of the texts in the object under a name, none where none is there. Its nulls are left out, and its empty texts stay.
pub fn optional_texts(
    alloc: Global,
    members: Option<&Members>,
    name: &str,
    field: Field,
) -> Result<Table<Text>, DecodeError>
    ensures { Gives (λ t. t) result (optional_texts_at field (under name.now (entries_of members.entry))) }
{
    match optional_object(members, name, field)? {
        Some(members) => texts_in(alloc, members, field),
        None => Ok(Table::new(alloc)),
    }
}

fn texts_in(alloc: Global, members: &Members, field: Field) -> Result<Table<Text>, DecodeError>
    ensures { Gives (λ t. t) result (texts_in field members.now.entries) }
{
    let mut texts = Table::with_capacity(alloc, members.len())?;
    for member in members.entries() {
        match &member.1 {
            Json::Null => {}
            Json::Str(text) => {
                let name = member.0.copy(alloc)?;
                let text = text.copy(alloc)?;
                texts.add(name, text)?;
            }
            _ => return Err(DecodeError::Shape(field)),
        }
    }
    Ok(texts)
}

fn is_rest(name: &Text, value: &Json) -> bool
    ensures { result ≡ is_rest (name.now, value.now) }
{
    if let Json::Null = value {
        return false;
    }
    name.as_str() != "containerConcurrency" && name.as_str() != "timeoutSeconds"
}

/// Copies of the members of a pod spec but its two numbers and its nulls.
pub fn rest_of(alloc: Global, members: &Members) -> Result<Members, AllocError>
    ensures { IfOk result (λ rest. rest ≡ rest_of members.now.entries) }
{
    let mut rest = Members::with_capacity(alloc, members.len())?;
    for member in members.entries() {
        if is_rest(&member.0, &member.1) {
            let name = member.0.copy(alloc)?;
            let value = member.1.copy(alloc)?;
            rest.add(name, value)?;
        }
    }
    Ok(rest)
}
