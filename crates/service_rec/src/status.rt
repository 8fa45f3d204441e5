//! The status of a Service, of what it sees of its Configuration and its Route.
ghost use Rattle.std.specs.Prelude.{◌≡◌, ◌++◌, ◌==◌, unwrap_or, IfOk};
ghost use Rattle.std.specs.Option.{option_copied};
ghost use Rattle.resource_types.specs.Objects.{no_status, status_of};
ghost use Rattle.control_rules.specs.Standing.{is_owned_by_uid};
ghost use Rattle.control_rules.specs.TrafficStatuses.{owned_status, configurations_condition, routes_condition};
ghost use Rattle.service_rec.specs.Sights.{seen, own_ready, seen_condition, conditions_by, status_by};

use conditions::fold;
use controller_parts::{about, condition_of, stated};
use json_tree::{Copied, Seq, Text};
use resource_types::{CondName, Condition, Name, Object, ObjectStatus, Target, Truth};
use std::alloc::{AllocError, Global};

/// Whether the object's owner has the uid.
pub fn is_owned_by_uid(uid: u64, object: &Object) -> bool
    ensures { result ≡ is_owned_by_uid uid object.now }
{
    match &object.meta.owner {
        Some(owner) => owner.uid == uid,
        None => false,
    }
}

// What the child says of itself, under the name.
fn own_ready(alloc: Global, name: CondName, child: &Object) -> Result<Condition, AllocError>
    ensures { IfOk result (λ c. c ≡ own_ready name child.now) }
{
    match condition_of(child.body.conditions(), CondName::Ready) {
        Some(ready) => {
            let message = ready.message.copy(alloc)?;
            stated(alloc, name, ready.truth, ready.reason.as_str(), message)
        }
        None => {
            let message = Text::new(alloc, "")?;
            stated(alloc, name, Truth::Unknown, "", message)
        }
    }
}

// Whether the child's status is of its generation.
fn is_observed(child: &Object) -> bool
    ensures { result ≡ ((status_of child.now.body).observed == child.now.meta.stamp.generation) }
{
    let observed = match child.body.status() {
        Some(status) => status.observed,
        None => 0,
    };
    observed == child.meta.stamp.generation
}

// The condition of the child, which is the Service's where its owner has the uid. `what` says which sort of object it is.
fn child_condition(
    alloc: Global,
    name: CondName,
    what: &str,
    simple: &Text,
    uid: u64,
    child: &Object,
) -> Result<Condition, AllocError>
    ensures { IfOk result (λ c. c ≡ seen_condition name (what.now ++ simple.now) uid child.now) }
{
    if !is_owned_by_uid(uid, child) {
        let message = about(alloc, what, simple, " is not owned by this service")?;
        let not_owned = stated(alloc, name, Truth::False, "NotOwned", message)?;
        return Ok(not_owned);
    }
    if !is_observed(child) {
        let sentence = about(alloc, what, simple, " is not observed yet")?;
        let out_of_date = stated(alloc, name, Truth::Unknown, "OutOfDate", sentence)?;
        return Ok(out_of_date);
    }
    let own = own_ready(alloc, name, child)?;
    Ok(own)
}

// Whether the Configuration is ready.
fn configurations_condition(
    alloc: Global,
    simple: &Text,
    uid: u64,
    configuration: &Object,
) -> Result<Condition, AllocError>
    ensures { IfOk result (λ c. c ≡ configurations_condition simple.now (seen uid configuration.now)) }
{
    child_condition(
        alloc,
        CondName::ConfigurationsReady,
        "configuration ",
        simple,
        uid,
        configuration,
    )
}

// Whether the Route is ready.
fn routes_condition(
    alloc: Global,
    simple: &Text,
    uid: u64,
    route: &Object,
) -> Result<Condition, AllocError>
    ensures { IfOk result (λ c. c ≡ routes_condition simple.now (seen uid route.now)) }
{
    child_condition(alloc, CondName::RoutesReady, "route ", simple, uid, route)
}

// The three conditions in order of type.
fn conditions_of(
    alloc: Global,
    simple: &Text,
    uid: u64,
    configuration: &Object,
    route: &Object,
) -> Result<Seq<Condition>, AllocError>
    ensures { IfOk result (λ cs. cs ≡ conditions_by simple.now (seen uid configuration.now) (seen uid route.now)) }
{
    let mut conditions = Seq::with_capacity(alloc, 3)?;
    conditions.push(configurations_condition(alloc, simple, uid, configuration)?)?;
    conditions.push(routes_condition(alloc, simple, uid, route)?)?;
    let ready = fold(alloc, &conditions)?;
    conditions.insert(1, ready)?;
    Ok(conditions)
}

// The status of the child, where its owner has the uid.
fn owned_status(uid: u64, child: &Object) -> Option<&ObjectStatus>
    ensures { unwrap_or (option_copied result) no_status ≡ owned_status (seen uid child.now) }
{
    if is_owned_by_uid(uid, child) {
        child.body.status()
    } else {
        None
    }
}

// The name of the latest created Revision.
fn created_of(alloc: Global, status: Option<&ObjectStatus>) -> Result<Text, AllocError>
    ensures { IfOk result (λ name. name ≡ (unwrap_or (option_copied status.entry) no_status).created) }
{
    match status {
        Some(status) => status.created.copy(alloc),
        None => Text::new(alloc, ""),
    }
}

// The name of the latest ready Revision.
fn ready_of(alloc: Global, status: Option<&ObjectStatus>) -> Result<Text, AllocError>
    ensures { IfOk result (λ name. name ≡ (unwrap_or (option_copied status.entry) no_status).ready) }
{
    match status {
        Some(status) => status.ready.copy(alloc),
        None => Text::new(alloc, ""),
    }
}

// The address.
fn url_of(alloc: Global, status: Option<&ObjectStatus>) -> Result<Text, AllocError>
    ensures { IfOk result (λ url. url ≡ (unwrap_or (option_copied status.entry) no_status).url) }
{
    match status {
        Some(status) => status.url.copy(alloc),
        None => Text::new(alloc, ""),
    }
}

// The targets that are published.
fn traffic_of(alloc: Global, status: Option<&ObjectStatus>) -> Result<Seq<Target>, AllocError>
    ensures { IfOk result (λ ts. ts ≡ (unwrap_or (option_copied status.entry) no_status).traffic) }
{
    match status {
        Some(status) => status.traffic.copy(alloc),
        None => Ok(Seq::new(alloc)),
    }
}

/// The status of the Service of the name, where its Configuration and its Route stand.
#[tactic(auto, unfolding(control_rules::specs::TrafficStatuses::service_status))]
pub fn service_status(
    alloc: Global,
    name: &Name,
    service: &Object,
    configuration: &Object,
    route: &Object,
) -> Result<ObjectStatus, AllocError>
    ensures { IfOk result (λ status. status ≡ status_by name.now service.now configuration.now route.now) }
{
    let uid = service.meta.stamp.uid;
    let of_configuration = owned_status(uid, configuration);
    let of_route = owned_status(uid, route);
    let mut status = ObjectStatus::empty(alloc)?;
    status.observed = service.meta.stamp.generation;
    status.created = created_of(alloc, of_configuration)?;
    status.ready = ready_of(alloc, of_configuration)?;
    status.url = url_of(alloc, of_route)?;
    status.traffic = traffic_of(alloc, of_route)?;
    status.conditions = conditions_of(alloc, &name.name, uid, configuration, route)?;
    Ok(status)
}
