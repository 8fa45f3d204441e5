//! Statuses, their conditions and the targets that are published, as JSON.
ghost use Rattle.std.specs.Prelude.{◌≡◌, IfOk, map};
ghost use Rattle.resource_codec.specs.Objects.{shown_moment, truth_word, condition_word, severity_word, condition_members, condition_json, published_members, published_json, observed_generation, status_members};

use crate::adding::{add_array, add_made, add_number, add_text, add_word};
use crate::writing::target_members;
use json_tree::{Json, Members, Seq, Text};
use resource_types::{CondName, Condition, ObjectStatus, Target, Truth};
use serve_names::{LAST_MOMENT, moment_text};
use std::alloc::{AllocError, Global};

// The most fields of a condition.
const CONDITION_FIELDS: usize = 6;

/// A moment as a text. One past the end of the year 9999, to which no clock gets, is shown as that end.
#[tactic(auto, unfolding(crate::specs::Objects::shown_moment))]
pub fn shown_moment(alloc: Global, moment: u64) -> Result<Text, AllocError>
    ensures { IfOk result (λ t. t ≡ shown_moment moment) }
{
    moment_text(alloc, moment.min(LAST_MOMENT))
}

fn truth_word(truth: Truth) -> &'static str
    ensures { result.now ≡ truth_word truth }
{
    match truth {
        Truth::True => "True",
        Truth::False => "False",
        Truth::Unknown => "Unknown",
    }
}

fn condition_word(name: CondName) -> &'static str
    ensures { result.now ≡ condition_word name }
{
    match name {
        CondName::AllTrafficAssigned => "AllTrafficAssigned",
        CondName::ConfigurationsReady => "ConfigurationsReady",
        CondName::ContainerHealthy => "ContainerHealthy",
        CondName::HasBeenReady => "HasBeenReady",
        CondName::IngressReady => "IngressReady",
        CondName::Ready => "Ready",
        CondName::ResourcesAvailable => "ResourcesAvailable",
        CondName::RoutesReady => "RoutesReady",
    }
}

fn severity_word(info: bool) -> &'static str
    ensures { result.now ≡ severity_word info }
{
    if info { "Info" } else { "" }
}

fn condition_members(alloc: Global, condition: &Condition) -> Result<Members, AllocError>
    ensures { IfOk result (λ m. m.entries ≡ condition_members condition.now) }
{
    let mut members = Members::with_capacity(alloc, CONDITION_FIELDS)?;
    let since = shown_moment(alloc, condition.since)?;
    add_made(alloc, &mut members, "lastTransitionTime", since)?;
    add_text(alloc, &mut members, "message", &condition.message)?;
    add_text(alloc, &mut members, "reason", &condition.reason)?;
    add_word(
        alloc,
        &mut members,
        "severity",
        severity_word(condition.info),
    )?;
    add_word(alloc, &mut members, "status", truth_word(condition.truth))?;
    add_word(alloc, &mut members, "type", condition_word(condition.name))?;
    Ok(members)
}

fn condition_jsons(alloc: Global, conditions: &Seq<Condition>) -> Result<Seq<Json>, AllocError>
    ensures { IfOk result (λ js. js ≡ map condition_json conditions.now) }
{
    let mut jsons = Seq::with_capacity(alloc, conditions.len())?;
    for condition in conditions.as_slice() {
        let members = condition_members(alloc, condition)?;
        jsons.push(Json::Obj(members))?;
    }
    Ok(jsons)
}

fn published_members(alloc: Global, target: &Target) -> Result<Members, AllocError>
    ensures { IfOk result (λ m. m.entries ≡ published_members target.now) }
{
    let mut members = target_members(alloc, target)?;
    add_text(alloc, &mut members, "url", &target.url)?;
    Ok(members)
}

/// Published targets: targets with their addresses.
pub fn published_jsons(alloc: Global, targets: &Seq<Target>) -> Result<Seq<Json>, AllocError>
    ensures { IfOk result (λ js. js ≡ map published_json targets.now) }
{
    let mut jsons = Seq::with_capacity(alloc, targets.len())?;
    for target in targets.as_slice() {
        let members = published_members(alloc, target)?;
        jsons.push(Json::Obj(members))?;
    }
    Ok(jsons)
}

fn observed_generation(generation: u64) -> Option<u64>
    ensures { result ≡ observed_generation generation }
{
    if generation == 0 {
        None
    } else {
        Some(generation)
    }
}

/// A status.
pub fn status_members(alloc: Global, status: &ObjectStatus) -> Result<Members, AllocError>
    ensures { IfOk result (λ m. m.entries ≡ status_members status.now) }
{
    let mut members = Members::new(alloc);
    let conditions = condition_jsons(alloc, &status.conditions)?;
    add_array(alloc, &mut members, "conditions", conditions)?;
    add_text(
        alloc,
        &mut members,
        "latestCreatedRevisionName",
        &status.created,
    )?;
    add_text(
        alloc,
        &mut members,
        "latestReadyRevisionName",
        &status.ready,
    )?;
    let observed = observed_generation(status.observed);
    add_number(alloc, &mut members, "observedGeneration", observed)?;
    let traffic = published_jsons(alloc, &status.traffic)?;
    add_array(alloc, &mut members, "traffic", traffic)?;
    add_text(alloc, &mut members, "url", &status.url)?;
    Ok(members)
}
