//! Reading one field: its value, or that the field is wrong.
ghost use Rattle.std.specs.Prelude.{◌≡◌};
ghost use Rattle.std.specs.Option.{option_copied};
ghost use Rattle.json_tree.specs.Tree.{find};
ghost use Rattle.json_tree.specs.declared.value.Json.TheViews.{out-Json};
ghost use Rattle.answers.specs.Answers.{Comes, ComesAs};
ghost use Rattle.resource_codec.specs.Reading.{under};
ghost use Rattle.control_bodies.specs.Bodies as spec;

use crate::fields::Field;
use answers::Stop;
use json_tree::{Json, Members, Text};
use serve_names::is_label;
use std::alloc::Global;

/// The longest namespace, in bytes.
const LONGEST_NAMESPACE: u64 = 63;

/// The members of a body, which must be an object.
pub(crate) fn members_of(json: &Json) -> Result<&Members, Stop<Field>>
    ensures { ComesAs (λ m. m.now.entries) result (spec.object_at Field.Body (out-Json json.now)) }
{
    match json {
        Json::Obj(members) => Ok(members),
        _ => Err(Stop::Refused(Field::Body)),
    }
}

/// The members of the object under a name, which must be there.
pub(crate) fn object_under<'a>(
    members: &'a Members,
    name: &str,
    field: Field,
) -> Result<&'a Members, Stop<Field>>
    ensures { ComesAs (λ m. m.now.entries) result (spec.object_at field (under name.now members.now.entries)) }
{
    match members.get(name) {
        Some(Json::Obj(members)) => Ok(members),
        _ => Err(Stop::Refused(field)),
    }
}

/// The text under a name, which must be there.
pub(crate) fn text_under<'a>(
    members: &'a Members,
    name: &str,
    field: Field,
) -> Result<&'a Text, Stop<Field>>
    ensures { ComesAs (λ t. t.now) result (spec.text_at field (under name.now members.now.entries)) }
{
    match members.get(name) {
        Some(Json::Str(text)) => Ok(text),
        _ => Err(Stop::Refused(field)),
    }
}

/// A copy of the text under a name, empty where none is there.
pub(crate) fn optional_text_under(
    alloc: Global,
    members: &Members,
    name: &str,
    field: Field,
) -> Result<Text, Stop<Field>>
    ensures { Comes result (spec.optional_text_at field (under name.now members.now.entries)) }
{
    match members.get(name) {
        Some(Json::Str(text)) => Ok(text.copy(alloc)?),
        Some(Json::Null) | None => Ok(Text::new(alloc, "")?),
        _ => Err(Stop::Refused(field)),
    }
}

/// The namespace of a body.
#[tactic(auto, unfolding(crate::specs::Bodies::space_in))]
pub(crate) fn space_in(alloc: Global, members: &Members) -> Result<Text, Stop<Field>>
    ensures { Comes result (spec.space_in members.now.entries) }
{
    let space = optional_text_under(alloc, members, "namespace", Field::Namespace)?;
    if space.is_empty() {
        return Ok(Text::new(alloc, "default")?);
    }
    if !is_label(space.as_str().as_bytes(), LONGEST_NAMESPACE) {
        return Err(Stop::Refused(Field::Namespace));
    }
    Ok(space)
}
