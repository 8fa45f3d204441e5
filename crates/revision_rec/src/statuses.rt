//! The status of a Revision, by what is reported of it.
ghost use Rattle.std.specs.Prelude.{◌≡◌, IfOk};
ghost use Rattle.std.specs.Option.{option_copied, option_map};
ghost use Rattle.control_rules.specs.Statuses.{resources_condition, container_condition, revision_status};
ghost use Rattle.revision_rec.specs.Reports.{as_reported, part_or_none, been_of, ready_of, conditions_of};

use crate::health::Reported;
use conditions::fold;
use controller_parts::stated;
use json_tree::{Seq, Text};
use resource_types::{CondName, Condition, ObjectStatus, Part, Truth};
use std::alloc::{AllocError, Global};

// A part as a condition, or that it was not reported.
fn part_condition(
    alloc: Global,
    name: CondName,
    part: Option<&Part>,
) -> Result<Condition, AllocError>
    ensures { IfOk result (λ c. c ≡ part_or_none name (option_copied part.entry)) }
{
    match part {
        Some(part) => stated(
            alloc,
            name,
            part.truth,
            part.reason.as_str(),
            part.message.copy(alloc)?,
        ),
        None => {
            let message = Text::new(alloc, "the revision was not reported yet")?;
            stated(alloc, name, Truth::Unknown, "NotReported", message)
        }
    }
}

// Whether what it runs on is there.
fn resources_condition(
    alloc: Global,
    reported: Option<Reported<'_>>,
) -> Result<Condition, AllocError>
    ensures { IfOk result (λ c. c ≡ resources_condition (option_map as_reported reported.entry)) }
{
    match reported {
        Some(reported) => part_condition(
            alloc,
            CondName::ResourcesAvailable,
            Some(reported.resources),
        ),
        None => part_condition(alloc, CondName::ResourcesAvailable, None),
    }
}

// Whether its container answers.
fn container_condition(
    alloc: Global,
    reported: Option<Reported<'_>>,
) -> Result<Condition, AllocError>
    ensures { IfOk result (λ c. c ≡ container_condition (option_map as_reported reported.entry)) }
{
    match reported {
        Some(reported) => part_condition(
            alloc,
            CondName::ContainerHealthy,
            Some(reported.container),
        ),
        None => part_condition(alloc, CondName::ContainerHealthy, None),
    }
}

// That it was ready once, of severity `Info`.
fn been_condition(alloc: Global, reported: Option<Reported<'_>>) -> Result<Condition, AllocError>
    ensures { IfOk result (λ c. c ≡ been_of (option_map as_reported reported.entry)) }
{
    let ever = match reported {
        Some(reported) => reported.ever,
        None => false,
    };
    Ok(Condition {
        name: CondName::HasBeenReady,
        truth: if ever { Truth::True } else { Truth::False },
        reason: Text::new(alloc, "")?,
        message: Text::new(alloc, "")?,
        info: true,
        since: 0,
    })
}

// The fold of the two parts.
fn ready_condition(alloc: Global, reported: Option<Reported<'_>>) -> Result<Condition, AllocError>
    ensures { IfOk result (λ c. c ≡ ready_of (option_map as_reported reported.entry)) }
{
    let mut parts = Seq::new(alloc);
    parts.push(resources_condition(alloc, reported)?)?;
    parts.push(container_condition(alloc, reported)?)?;
    fold(alloc, &parts)
}

// The four conditions in order of type.
fn conditions_of(
    alloc: Global,
    reported: Option<Reported<'_>>,
) -> Result<Seq<Condition>, AllocError>
    ensures { IfOk result (λ cs. cs ≡ conditions_of (option_map as_reported reported.entry)) }
{
    let mut conditions = Seq::with_capacity(alloc, 4)?;
    conditions.push(container_condition(alloc, reported)?)?;
    conditions.push(been_condition(alloc, reported)?)?;
    conditions.push(ready_condition(alloc, reported)?)?;
    conditions.push(resources_condition(alloc, reported)?)?;
    Ok(conditions)
}

/// The status of a Revision of the generation.
#[tactic(auto, unfolding(control_rules::specs::Statuses::revision_status))]
pub fn revision_status(
    alloc: Global,
    generation: u64,
    reported: Option<Reported<'_>>,
) -> Result<ObjectStatus, AllocError>
    ensures { IfOk result (λ status.
        status ≡ revision_status generation (option_map as_reported reported.entry)) }
{
    let mut status = ObjectStatus::empty(alloc)?;
    status.observed = generation;
    status.conditions = conditions_of(alloc, reported)?;
    Ok(status)
}
