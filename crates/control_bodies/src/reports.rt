//! Reports.
ghost use Rattle.std.specs.Prelude.{◌≡◌};
ghost use Rattle.answers.specs.Answers.{Comes};
ghost use Rattle.api_paths.specs.Paths.{beside};
ghost use Rattle.control_bodies.specs.Bodies as spec;

use crate::fields::{Field, PartField, Side};
use crate::reading::{members_of, object_under, optional_text_under, space_in, text_under};
use answers::Stop;
use control_rules::Report;
use json_tree::{Json, Members};
use resource_types::{Name, Part, Truth};
use std::alloc::Global;

/// The truth of a word.
fn truth_of(word: &str) -> Option<Truth>
    ensures { result ≡ beside word.now spec.truths }
{
    match word {
        "True" => Some(Truth::True),
        "False" => Some(Truth::False),
        "Unknown" => Some(Truth::Unknown),
        _ => None,
    }
}

/// The truth under `status` of a part.
fn truth_in(fields: &Members, field: Field) -> Result<Truth, Stop<Field>>
    ensures { Comes result (spec.truth_in field fields.now.entries) }
{
    let word = text_under(fields, "status", field)?;
    truth_of(word.as_str()).ok_or(Stop::Refused(field))
}

/// One part of a report.
#[tactic(auto, unfolding(crate::specs::Bodies::part_in))]
fn part_in(alloc: Global, side: Side, members: &Members) -> Result<Part, Stop<Field>>
    ensures { Comes result (spec.part_in side members.now.entries) }
{
    let fields = object_under(members, side.name(), Field::Part(side, PartField::Whole))?;
    let truth = truth_in(fields, Field::Part(side, PartField::Status))?;
    let reason = optional_text_under(
        alloc,
        fields,
        "reason",
        Field::Part(side, PartField::Reason),
    )?;
    let message = optional_text_under(
        alloc,
        fields,
        "message",
        Field::Part(side, PartField::Message),
    )?;
    Ok(Part {
        truth,
        reason,
        message,
    })
}

/// The report that a body is, or the first field that is wrong: `revisionName`, then `resourcesAvailable` and
/// `containerHealthy`, each with its `status`, `reason` and `message`, then `namespace`.
#[tactic(auto, unfolding(crate::specs::Bodies::report_in))]
pub fn read_report(alloc: Global, json: &Json) -> Result<Report, Stop<Field>>
    ensures { Comes result (spec.report_in json.now) }
{
    let members = members_of(json)?;
    let name = text_under(members, "revisionName", Field::RevisionName)?;
    let resources = part_in(alloc, Side::Resources, members)?;
    let container = part_in(alloc, Side::Container, members)?;
    let space = space_in(alloc, members)?;
    let name = name.copy(alloc)?;
    Ok(Report {
        revision: Name { space, name },
        resources,
        container,
    })
}
