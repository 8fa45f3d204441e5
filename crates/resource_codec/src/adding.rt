//! Adding fields to the members of an object, one after another in the order of their names. What is empty or absent is
//! left out.
ghost use Rattle.std.specs.Prelude.{◌≡◌, IfOk, OnOk, map, Some};
ghost use Rattle.resource_codec.specs.Written.{add_field, text_field, number_field, truth_field, texts_field, object_field, array_field, text_member};

use json_tree::{Json, Members, Seq, Table, Text};
use std::alloc::{AllocError, Global};

/// Adds a value under a name.
#[tactic(auto, unfolding(crate::specs::Written::add_field))]
pub fn add(alloc: Global, members: &mut Members, name: &str, value: Json) -> Result<(), AllocError>
    ensures { OnOk result (members.new.entries ≡ add_field name.now (Some value) members.old.entries) }
{
    members.add(Text::new(alloc, name)?, value)
}

/// Adds a value, if there is one.
#[tactic(auto, unfolding(crate::specs::Written::add_field))]
pub fn add_json(
    alloc: Global,
    members: &mut Members,
    name: &str,
    value: Option<Json>,
) -> Result<(), AllocError>
    ensures { OnOk result (members.new.entries ≡ add_field name.now value members.old.entries) }
{
    match value {
        Some(value) => add(alloc, members, name, value),
        None => Ok(()),
    }
}

/// Adds a word that is not empty.
#[tactic(auto, unfolding(crate::specs::Written::add_field, crate::specs::Written::text_field))]
pub fn add_word(
    alloc: Global,
    members: &mut Members,
    name: &str,
    word: &str,
) -> Result<(), AllocError>
    ensures { OnOk result (members.new.entries ≡ add_field name.now (text_field word.now) members.old.entries) }
{
    if word.is_empty() {
        return Ok(());
    }
    add(alloc, members, name, Json::Str(Text::new(alloc, word)?))
}

/// Adds a text that is not empty.
pub fn add_text(
    alloc: Global,
    members: &mut Members,
    name: &str,
    text: &Text,
) -> Result<(), AllocError>
    ensures { OnOk result (members.new.entries ≡ add_field name.now (text_field text.now) members.old.entries) }
{
    add_word(alloc, members, name, text.as_str())
}

/// Adds a text that was made for it and is not empty: it is moved and not copied.
#[tactic(auto, unfolding(crate::specs::Written::add_field, crate::specs::Written::text_field))]
pub fn add_made(
    alloc: Global,
    members: &mut Members,
    name: &str,
    text: Text,
) -> Result<(), AllocError>
    ensures { OnOk result (members.new.entries ≡ add_field name.now (text_field text) members.old.entries) }
{
    if text.is_empty() {
        return Ok(());
    }
    add(alloc, members, name, Json::Str(text))
}

/// Adds a number, if there is one.
#[tactic(auto, unfolding(crate::specs::Written::add_field, crate::specs::Written::number_field))]
pub fn add_number(
    alloc: Global,
    members: &mut Members,
    name: &str,
    number: Option<u64>,
) -> Result<(), AllocError>
    ensures { OnOk result (members.new.entries ≡ add_field name.now (number_field number) members.old.entries) }
{
    match number {
        Some(number) => add(alloc, members, name, Json::Nat(number)),
        None => Ok(()),
    }
}

/// Adds a truth, if there is one.
#[tactic(auto, unfolding(crate::specs::Written::add_field, crate::specs::Written::truth_field))]
pub fn add_truth(
    alloc: Global,
    members: &mut Members,
    name: &str,
    truth: Option<bool>,
) -> Result<(), AllocError>
    ensures { OnOk result (members.new.entries ≡ add_field name.now (truth_field truth) members.old.entries) }
{
    match truth {
        Some(truth) => add(alloc, members, name, Json::Bool(truth)),
        None => Ok(()),
    }
}

/// Adds an object that is not empty.
#[tactic(auto, unfolding(crate::specs::Written::add_field, crate::specs::Written::object_field))]
pub fn add_object(
    alloc: Global,
    members: &mut Members,
    name: &str,
    object: Members,
) -> Result<(), AllocError>
    ensures { OnOk result (members.new.entries ≡ add_field name.now (object_field object.entries) members.old.entries) }
{
    if object.is_empty() {
        return Ok(());
    }
    add(alloc, members, name, Json::Obj(object))
}

/// Adds an array that is not empty.
#[tactic(auto, unfolding(crate::specs::Written::add_field, crate::specs::Written::array_field))]
pub fn add_array(
    alloc: Global,
    members: &mut Members,
    name: &str,
    items: Seq<Json>,
) -> Result<(), AllocError>
    ensures { OnOk result (members.new.entries ≡ add_field name.now (array_field items) members.old.entries) }
{
    if items.is_empty() {
        return Ok(());
    }
    add(alloc, members, name, Json::Arr(items))
}

/// Adds an object of texts that is not empty. Its texts stand as they are, the empty ones too.
#[tactic(auto, unfolding(crate::specs::Written::texts_field))]
pub fn add_texts(
    alloc: Global,
    members: &mut Members,
    name: &str,
    texts: &Table<Text>,
) -> Result<(), AllocError>
    ensures { OnOk result (members.new.entries ≡ add_field name.now (texts_field texts.now) members.old.entries) }
{
    let object = text_members(alloc, texts)?;
    add_object(alloc, members, name, object)
}

fn text_members(alloc: Global, texts: &Table<Text>) -> Result<Members, AllocError>
    ensures { IfOk result (λ m. m.entries ≡ map text_member texts.now.entries) }
{
    let mut members = Members::with_capacity(alloc, texts.len())?;
    for text in texts.entries() {
        let name = text.0.copy(alloc)?;
        let value = text.1.copy(alloc)?;
        members.add(name, Json::Str(value))?;
    }
    Ok(members)
}
