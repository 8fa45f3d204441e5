//! Reading one member of an object: its value, or that the body is refused. A null counts as absent.
ghost use Rattle.std.specs.Prelude.{◌≡◌};
ghost use Rattle.std.specs.Option.{option_copied};
ghost use Rattle.json_tree.specs.Tree.{find};
ghost use Rattle.json_tree.specs.declared.value.Json.TheViews.{out-Json};
ghost use Rattle.resource_codec.specs.Reading.{under};
ghost use Rattle.gateway_pick.specs.Reading as spec;
ghost use Rattle.gateway_pick.specs.Reading.{Gives};

use crate::error::FollowError;
use crate::uids::uid_of;
use crate::versions::version_of;
use json_tree::{Json, Members};

fn under<'a>(members: &'a Members, name: &str) -> Option<&'a Json>
    ensures { option_copied result ≡ find name.now members.now.entries }
{
    members.get(name)
}

/// The members of a value, which must be an object.
pub(crate) fn object(json: &Json) -> Result<&Members, FollowError>
    ensures { Gives (λ m. m.now.entries) result (spec.object (out-Json json.now)) }
{
    match json {
        Json::Obj(members) => Ok(members),
        _ => Err(FollowError::Refused),
    }
}

/// The members of the object under a name.
pub(crate) fn object_under<'a>(members: &'a Members, name: &str) -> Result<&'a Members, FollowError>
    ensures { Gives (λ m. m.now.entries) result (spec.object (under name.now members.now.entries)) }
{
    match under(members, name) {
        Some(Json::Obj(members)) => Ok(members),
        _ => Err(FollowError::Refused),
    }
}

/// The items of the array under a name.
pub(crate) fn items<'a>(members: &'a Members, name: &str) -> Result<&'a [Json], FollowError>
    ensures { Gives (λ js. js.now) result (spec.items (under name.now members.now.entries)) }
{
    match under(members, name) {
        Some(Json::Arr(items)) => Ok(items.as_slice()),
        _ => Err(FollowError::Refused),
    }
}

/// The text under a name, which isn't empty.
pub(crate) fn word<'a>(members: &'a Members, name: &str) -> Result<&'a str, FollowError>
    ensures { Gives (λ t. t.now) result (spec.word (under name.now members.now.entries)) }
{
    match under(members, name) {
        Some(Json::Str(text)) if !text.is_empty() => Ok(text.as_str()),
        _ => Err(FollowError::Refused),
    }
}

/// The text under a name, which isn't empty, or another one where there is none.
pub(crate) fn word_or<'a>(
    members: &'a Members,
    name: &str,
    absent: &'a str,
) -> Result<&'a str, FollowError>
    ensures { Gives (λ t. t.now) result (spec.word_or absent.entry.now (under name.now members.entry.now.entries)) }
{
    match under(members, name) {
        Some(Json::Null) | None => Ok(absent),
        Some(Json::Str(text)) if !text.is_empty() => Ok(text.as_str()),
        _ => Err(FollowError::Refused),
    }
}

/// The number under a name.
pub(crate) fn number(members: &Members, name: &str) -> Result<u64, FollowError>
    ensures { Gives (λ n. n) result (spec.number (under name.now members.now.entries)) }
{
    match under(members, name) {
        Some(Json::Nat(number)) => Ok(*number),
        _ => Err(FollowError::Refused),
    }
}

/// The uid under a name.
pub(crate) fn uid(members: &Members, name: &str) -> Result<u64, FollowError>
    ensures { Gives (λ n. n) result (spec.uid (under name.now members.now.entries)) }
{
    match under(members, name) {
        Some(Json::Str(text)) => uid_of(text.bytes()).ok_or(FollowError::Refused),
        _ => Err(FollowError::Refused),
    }
}

/// The version under a name.
pub(crate) fn version(members: &Members, name: &str) -> Result<u64, FollowError>
    ensures { Gives (λ n. n) result (spec.version (under name.now members.now.entries)) }
{
    match under(members, name) {
        Some(Json::Str(text)) => version_of(text.bytes()).ok_or(FollowError::Refused),
        _ => Err(FollowError::Refused),
    }
}
