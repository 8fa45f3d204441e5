//! Moments of the clock.
ghost use Rattle.std.specs.Prelude.{◌≡◌, ◌≤◌, IfOk, IfSome};
ghost use Rattle.answers.specs.Answers.{Comes};
ghost use Rattle.json_tree.specs.Tree.{find};
ghost use Rattle.std.specs.Option.{option_copied};
ghost use Rattle.resource_codec.specs.Reading.{layer};
ghost use Rattle.serve_names.specs.Moments.{last_moment};
ghost use Rattle.control_bodies.specs.Bodies as spec;

use crate::fields::Field;
use crate::reading::members_of;
use answers::Stop;
use json_tree::Json;
use serve_names::{LAST_MOMENT, read_moment};

/// The moment of which the bytes are the text.
fn moment_of_text(bytes: &[u8]) -> Option<u64>
    ensures range { IfSome result (λ m. m ≤ last_moment) }
    ensures value { result ≡ spec.moment_of_text bytes.now }
{
    read_moment(bytes)
}

/// The moment that a value is.
fn moment_at(value: Option<&Json>) -> Option<u64>
    ensures range { IfSome result (λ m. m ≤ last_moment) }
    ensures value { result ≡ spec.moment_at (layer (option_copied value.entry)) }
{
    match value {
        Some(Json::Nat(moment)) if *moment <= LAST_MOMENT => Some(*moment),
        Some(Json::Str(text)) => moment_of_text(text.as_str().as_bytes()),
        _ => None,
    }
}

/// The moment to which a body sets the clock, under `now`: whole seconds from 1970 up to 253,402,300,799, or a text such as
/// `2024-05-01T10:00:00Z`. It takes no memory.
#[tactic(auto, unfolding(crate::specs::Bodies::clock_in))]
pub fn read_clock(json: &Json) -> Result<u64, Stop<Field>>
    ensures value { Comes result (spec.clock_in json.now) }
    ensures range { IfOk result (λ m. m ≤ last_moment) }
{
    let members = members_of(json)?;
    moment_at(members.get("now")).ok_or(Stop::Refused(Field::Now))
}
