//! The members of a line, added one after another in the order of their names.
ghost use Rattle.std.specs.Prelude.{◌≡◌, ◌++◌, ◌∷◌, [], OnOk};
ghost use Rattle.json_tree.specs.declared.value.Json.{Nat, Str};
ghost use Rattle.resource_codec.specs.Written.{object_of};

use json_tree::{Json, Members, Text};
use std::alloc::{AllocError, Global};

/// Adds a value under a name.
pub(crate) fn add(
    alloc: Global,
    members: &mut Members,
    name: &str,
    value: Json,
) -> Result<(), AllocError>
    ensures { OnOk result (members.new.entries ≡ members.old.entries ++ (name.now, value) ∷ []) }
{
    members.add(Text::new(alloc, name)?, value)
}

/// Adds a word.
pub(crate) fn add_word(
    alloc: Global,
    members: &mut Members,
    name: &str,
    word: &str,
) -> Result<(), AllocError>
    ensures { OnOk result (members.new.entries ≡ members.old.entries ++ (name.now, Str word.now) ∷ []) }
{
    let word = Text::new(alloc, word)?;
    add(alloc, members, name, Json::Str(word))
}

/// Adds a copy of a text, also of an empty one.
pub(crate) fn add_text(
    alloc: Global,
    members: &mut Members,
    name: &str,
    text: &Text,
) -> Result<(), AllocError>
    ensures { OnOk result (members.new.entries ≡ members.old.entries ++ (name.now, Str text.now) ∷ []) }
{
    add_word(alloc, members, name, text.as_str())
}

/// Adds a number.
pub(crate) fn add_number(
    alloc: Global,
    members: &mut Members,
    name: &str,
    number: u64,
) -> Result<(), AllocError>
    ensures { OnOk result (members.new.entries ≡ members.old.entries ++ (name.now, Nat number) ∷ []) }
{
    add(alloc, members, name, Json::Nat(number))
}

/// Adds an object.
pub(crate) fn add_object(
    alloc: Global,
    members: &mut Members,
    name: &str,
    object: Members,
) -> Result<(), AllocError>
    ensures { OnOk result (members.new.entries ≡ members.old.entries ++ (name.now, object_of object.entries) ∷ []) }
{
    add(alloc, members, name, Json::Obj(object))
}
