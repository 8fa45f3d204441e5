//! Statuses, and their conditions.
ghost use Rattle.std.specs.Prelude.{◌≡◌, IfOk, OnOk, map};
ghost use Rattle.resource_codec.specs.Written.{array_field};
ghost use Rattle.resource_codec.specs.Objects.{shown_moment, truth_word, condition_word, severity_word, condition_json, observed_generation, status_json};
ghost use Rattle.object_writer.specs.Tokens.{with_value, with_field};

use crate::targets::published_field;
use crate::text::JsonText;
use json_tree::{Seq, Text};
use resource_types::{CondName, Condition, ObjectStatus, Truth};
use serve_names::{LAST_MOMENT, moment_text};
use std::alloc::{AllocError, Global};

/// A moment as a text. One past the end of the year 9999, to which no clock gets, is shown as that end.
#[tactic(auto, unfolding(resource_codec::specs::Objects::shown_moment))]
pub fn shown_moment(alloc: Global, moment: u64) -> Result<Text, AllocError>
    ensures { IfOk result (λ t. t ≡ shown_moment moment) }
{
    moment_text(alloc, moment.min(LAST_MOMENT))
}

fn truth_word(truth: Truth) -> &'static str
    ensures { result.now ≡ truth_word truth }
{
    match truth {
        Truth::True => "True",
        Truth::False => "False",
        Truth::Unknown => "Unknown",
    }
}

fn condition_word(name: CondName) -> &'static str
    ensures { result.now ≡ condition_word name }
{
    match name {
        CondName::AllTrafficAssigned => "AllTrafficAssigned",
        CondName::ConfigurationsReady => "ConfigurationsReady",
        CondName::ContainerHealthy => "ContainerHealthy",
        CondName::HasBeenReady => "HasBeenReady",
        CondName::IngressReady => "IngressReady",
        CondName::Ready => "Ready",
        CondName::ResourcesAvailable => "ResourcesAvailable",
        CondName::RoutesReady => "RoutesReady",
    }
}

fn severity_word(info: bool) -> &'static str
    ensures { result.now ≡ severity_word info }
{
    if info { "Info" } else { "" }
}

fn write_condition(
    alloc: Global,
    out: &mut JsonText,
    condition: &Condition,
) -> Result<(), AllocError>
    ensures { OnOk result (out.new ≡ with_value (condition_json condition.now) out.old) }
{
    let since = shown_moment(alloc, condition.since)?;
    out.open_object()?;
    out.text_field("lastTransitionTime", since.as_str())?;
    out.text_field("message", condition.message.as_str())?;
    out.text_field("reason", condition.reason.as_str())?;
    out.text_field("severity", severity_word(condition.info))?;
    out.text_field("status", truth_word(condition.truth))?;
    out.text_field("type", condition_word(condition.name))?;
    out.close_object()
}

fn conditions_field(
    alloc: Global,
    out: &mut JsonText,
    name: &str,
    conditions: &Seq<Condition>,
) -> Result<(), AllocError>
    ensures { OnOk result (out.new ≡ with_field name.now (array_field (map condition_json conditions.now)) out.old) }
{
    if conditions.is_empty() {
        return Ok(());
    }
    out.name(name)?;
    out.open_array()?;
    for condition in conditions.as_slice() {
        write_condition(alloc, out, condition)?;
    }
    out.close_array()
}

fn observed_generation(generation: u64) -> Option<u64>
    ensures { result ≡ observed_generation generation }
{
    if generation == 0 {
        None
    } else {
        Some(generation)
    }
}

/// Writes a status.
pub fn write_status(
    alloc: Global,
    out: &mut JsonText,
    status: &ObjectStatus,
) -> Result<(), AllocError>
    ensures { OnOk result (out.new ≡ with_value (status_json status.now) out.old) }
{
    out.open_object()?;
    conditions_field(alloc, out, "conditions", &status.conditions)?;
    out.text_field("latestCreatedRevisionName", status.created.as_str())?;
    out.text_field("latestReadyRevisionName", status.ready.as_str())?;
    let observed = observed_generation(status.observed);
    out.number_field("observedGeneration", observed)?;
    published_field(out, "traffic", &status.traffic)?;
    out.text_field("url", status.url.as_str())?;
    out.close_object()
}
