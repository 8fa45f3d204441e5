//! The status of a Route.
ghost use Rattle.std.specs.Prelude.{◌≡◌, option_map, IfOk};
ghost use Rattle.std.specs.Option.{option_copied};
ghost use Rattle.resource_types.specs.Lookups.{state};
ghost use Rattle.control_rules.specs.Resolution.{address_of, stored};
ghost use Rattle.control_rules.specs.Statuses.{about, stated};
ghost use Rattle.control_rules.specs.TrafficStatuses.{traffic_condition, ingress_condition, published_or_none, route_status};
ghost use Rattle.control_rules.specs.Readings.{own_targets, route_status_in};
ghost use Rattle.control_rules.specs.NextRoute.{route_status_differs};
ghost use Rattle.controller_parts.specs.Views.{due_plan};
ghost use Rattle.route_rec.specs.Published.{conditions_of};
ghost use Rattle.route_rec.specs.Traffic.{IsSeen};

use crate::traffic::Traffic;
use conditions::fold;
use control_rules::{Named, Resolved};
use controller_parts::{Due, about, holding, settle, standing, stated};
use json_tree::{Copied, Seq, Text};
use resource_types::{Body, CondName, Condition, Kind, Object, ObjectStatus, Target, Truth};
use std::alloc::{AllocError, Global};
use traffic_resolver::host_of;
use version_store::Store;

// What hinders the first target that isn't ready, by its name between two texts.
fn hindered(
    alloc: Global,
    truth: Truth,
    reason: &str,
    before: &str,
    name: &Text,
    behind: &str,
) -> Result<Condition, AllocError>
    ensures { IfOk result (λ c.
        c ≡ stated CondName.AllTrafficAssigned truth reason.now (about before.now name.now behind.now)) }
{
    let message = about(alloc, before, name, behind)?;
    stated(alloc, CondName::AllTrafficAssigned, truth, reason, message)
}

// Whether all traffic is assigned.
fn traffic_condition(alloc: Global, resolved: &Resolved) -> Result<Condition, AllocError>
    ensures { IfOk result (λ c. c ≡ traffic_condition resolved.now) }
{
    match resolved {
        Resolved::Assigned { .. } => holding(alloc, CondName::AllTrafficAssigned),
        Resolved::Missing {
            kind: Named::Configuration,
            name,
            ..
        } => hindered(
            alloc,
            Truth::False,
            "ConfigurationMissing",
            "configuration ",
            name,
            " does not exist",
        ),
        Resolved::Missing {
            kind: Named::Revision,
            name,
            ..
        } => hindered(
            alloc,
            Truth::False,
            "RevisionMissing",
            "the revision of ",
            name,
            " does not exist",
        ),
        Resolved::Unready {
            kind: Named::Configuration,
            name,
            ..
        } => hindered(
            alloc,
            Truth::Unknown,
            "ConfigurationUnready",
            "configuration ",
            name,
            " has no ready revision",
        ),
        Resolved::Unready {
            kind: Named::Revision,
            name,
            ..
        } => hindered(
            alloc,
            Truth::Unknown,
            "RevisionUnready",
            "the revision of ",
            name,
            " is not ready",
        ),
    }
}

// Whether a Table is published.
fn ingress_condition(
    alloc: Global,
    published: Option<&Seq<Target>>,
) -> Result<Condition, AllocError>
    ensures { IfOk result (λ c. c ≡ ingress_condition (option_copied published.entry)) }
{
    match published {
        Some(_) => holding(alloc, CondName::IngressReady),
        None => {
            let message = Text::new(alloc, "no table is published")?;
            stated(
                alloc,
                CondName::IngressReady,
                Truth::Unknown,
                "NotPublished",
                message,
            )
        }
    }
}

// The three conditions in order of type.
fn conditions_of(
    alloc: Global,
    resolved: &Resolved,
    published: Option<&Seq<Target>>,
) -> Result<Seq<Condition>, AllocError>
    ensures { IfOk result (λ cs. cs ≡ conditions_of resolved.now (option_copied published.entry)) }
{
    let mut conditions = Seq::with_capacity(alloc, 3)?;
    conditions.push(traffic_condition(alloc, resolved)?)?;
    conditions.push(ingress_condition(alloc, published)?)?;
    let ready = fold(alloc, &conditions)?;
    conditions.push(ready)?;
    Ok(conditions)
}

// The targets that are published.
fn published_or_none(
    alloc: Global,
    published: Option<&Seq<Target>>,
) -> Result<Seq<Target>, AllocError>
    ensures { IfOk result (λ targets. targets ≡ published_or_none (option_copied published.entry)) }
{
    match published {
        Some(targets) => targets.copy(alloc),
        None => Ok(Seq::new(alloc)),
    }
}

// The address of a host.
fn address_of(alloc: Global, host: &Text) -> Result<Text, AllocError>
    ensures { IfOk result (λ url. url ≡ address_of host.now) }
{
    let mut url = String::from_str(alloc, "http://")?;
    url.push_str(host.as_str())?;
    Ok(Text::from_string(url))
}

/// The status of a Route of the generation and the host, by what its targets come to and by the
/// targets of its Table. Its times are 0.
#[tactic(auto, unfolding(control_rules::specs::TrafficStatuses::route_status))]
pub fn route_status(
    alloc: Global,
    generation: u64,
    host: &Text,
    resolved: &Resolved,
    published: Option<&Seq<Target>>,
) -> Result<ObjectStatus, AllocError>
    ensures { IfOk result (λ s.
        s ≡ route_status generation host.now resolved.now (option_copied published.entry)) }
{
    let mut status = ObjectStatus::empty(alloc)?;
    status.observed = generation;
    status.url = address_of(alloc, host)?;
    status.traffic = published_or_none(alloc, published)?;
    status.conditions = conditions_of(alloc, resolved, published)?;
    Ok(status)
}

// The targets of the Table, where it is the Route's.
fn own_targets(uid: u64, table: Option<&Object>) -> Option<&Seq<Target>>
    ensures { option_copied result ≡ own_targets uid (option_copied table.entry) }
{
    match &table?.body {
        Body::Table { route, targets, .. } => { if *route == uid { Some(targets) } else { None } }
        _ => None,
    }
}

// The status that is due to the Route.
fn status_due(
    alloc: Global,
    store: &Store<Object>,
    traffic: &Traffic<'_>,
) -> Result<ObjectStatus, AllocError>
    requires { IsSeen (state store.now.entries) traffic.now }
    ensures { IfOk result (λ s. s
        ≡ route_status_in stored traffic.now.domain.now (state store.now.entries)
        traffic.now.route.now traffic.now.object.now) }
{
    let tag = Text::new(alloc, "")?;
    let host = host_of(
        alloc,
        &tag,
        &traffic.route.name,
        &traffic.route.space,
        traffic.domain,
    )?;
    let table = standing(
        store,
        Kind::Table,
        &traffic.route.space,
        &traffic.route.name,
    );
    let stamp = &traffic.object.meta.stamp;
    let published = own_targets(stamp.uid, table);
    let status = route_status(alloc, stamp.generation, &host, traffic.resolved, published)?;
    Ok(status)
}

/// The Route gets its status.
pub fn status_differs(
    alloc: Global,
    store: &Store<Object>,
    traffic: &Traffic<'_>,
    now: u64,
) -> Result<Option<Due>, AllocError>
    requires { IsSeen (state store.now.entries) traffic.now }
    ensures { IfOk result (λ due. option_map due_plan due
        ≡ route_status_differs traffic.now.domain.now (state store.now.entries)
        traffic.now.route.now now) }
{
    let status = status_due(alloc, store, traffic)?;
    let due = settle(alloc, traffic.object, status, now)?;
    Ok(due)
}
