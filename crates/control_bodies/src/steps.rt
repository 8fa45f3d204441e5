//! Picked steps.
ghost use Rattle.std.specs.Prelude.{◌≡◌};
ghost use Rattle.answers.specs.Answers.{Comes};
ghost use Rattle.api_paths.specs.Paths.{beside};
ghost use Rattle.control_bodies.specs.Bodies as spec;

use crate::fields::Field;
use crate::reading::{members_of, space_in, text_under};
use answers::Stop;
use json_tree::{Json, Members};
use resource_types::{Controller, Name, SlotKey};
use std::alloc::Global;

/// The controller of a word.
fn controller_of(word: &str) -> Option<Controller>
    ensures { result ≡ beside word.now spec.controllers }
{
    match word {
        "Service" => Some(Controller::Service),
        "Configuration" => Some(Controller::Configuration),
        "Revision" => Some(Controller::Revision),
        "Collector" => Some(Controller::Collector),
        "Route" => Some(Controller::Route),
        _ => None,
    }
}

/// The controller of a body.
fn controller_in(members: &Members) -> Result<Controller, Stop<Field>>
    ensures { Comes result (spec.controller_in members.now.entries) }
{
    let word = text_under(members, "controller", Field::Controller)?;
    controller_of(word.as_str()).ok_or(Stop::Refused(Field::Controller))
}

/// The key of the slot that a body picks, or the first field that is wrong: `controller`, then `name`, then `namespace`.
#[tactic(auto, unfolding(crate::specs::Bodies::step_in))]
pub fn read_step(alloc: Global, json: &Json) -> Result<SlotKey, Stop<Field>>
    ensures { Comes result (spec.step_in json.now) }
{
    let members = members_of(json)?;
    let controller = controller_in(members)?;
    let name = text_under(members, "name", Field::Name)?;
    let space = space_in(alloc, members)?;
    let name = name.copy(alloc)?;
    Ok(SlotKey {
        controller,
        name: Name { space, name },
    })
}
