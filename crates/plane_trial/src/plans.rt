//! What a controller plans, told in a line.
ghost use Rattle.control_rules.specs.Slots.{present};
ghost use Rattle.step_scheduler.specs.Looking.{CanLook};

use crate::events::{Event, happen, name_of};
use configuration_rec::ConfigurationRec;
use resource_types::{Controller, Kind, Name, Object, standing};
use revision_gc::CollectorRec;
use revision_rec::RevisionRec;
use route_rec::RouteRec;
use service_rec::ServiceRec;
use std::alloc::{AllocError, Global};
use step_scheduler::Plane;
use version_store::{Change, Expect, Plan, Reconciler, Store};

// What the controller plans next to the name by a look, though the event happens between the two.
fn planned_behind<R: Reconciler<Object>>(
    reconciler: &R,
    controller: Controller,
    alloc: Global,
    plane: &mut Plane,
    name: &Name,
    event: Option<Event<'_>>,
) -> Result<Option<Plan<Object>>, AllocError>
    requires { CanLook controller (present plane.old.plane) plane.old.plane.now
        → R.fits reconciler.now (present plane.old.plane) plane.old.plane.now }
{
    let view = reconciler.look(alloc, plane.store(), name, plane.now())?;
    if let Some(event) = event {
        happen(alloc, plane, event)?;
    }
    reconciler.plan(alloc, &view)
}

// The same of each controller.
fn planned(
    alloc: Global,
    plane: &mut Plane,
    controller: Controller,
    name: &Name,
    event: Option<Event<'_>>,
) -> Result<Option<Plan<Object>>, AllocError> {
    match controller {
        Controller::Service => {
            planned_behind(&ServiceRec {}, controller, alloc, plane, name, event)
        }
        Controller::Configuration => {
            planned_behind(&ConfigurationRec {}, controller, alloc, plane, name, event)
        }
        Controller::Revision => {
            planned_behind(&RevisionRec {}, controller, alloc, plane, name, event)
        }
        Controller::Collector => {
            let collector = CollectorRec {
                settings: plane.settings().gc,
            };
            planned_behind(&collector, controller, alloc, plane, name, event)
        }
        Controller::Route => {
            let route = RouteRec {
                domain: plane.settings().domain.copy(alloc)?,
            };
            planned_behind(&route, controller, alloc, plane, name, event)
        }
    }
}

// Which part of the object of this version the new one has otherwise.
fn part_changed(store: &Store<Object>, version: u64, new: &Object) -> &'static str {
    let Some(entry) = store.entry(version) else {
        return "nothing";
    };
    match &entry.object {
        Some(old) => {
            if !new.body.has_spec_of(&old.body) {
                "spec"
            } else if new.body.pins() != old.body.pins() {
                "pins"
            } else {
                "status"
            }
        }
        None => "nothing",
    }
}

// What the plan does, to what stands as which version.
fn told(alloc: Global, store: &Store<Object>, plan: &Plan<Object>) -> Result<String, AllocError> {
    let (kind, name) = (plan.key.kind.as_str(), plan.key.name.name.as_str());
    let guarded = if plan.guarded { ", guarded" } else { "" };
    match (&plan.change, plan.expect) {
        (Change::Put(_), Expect::Absent) => format!(in alloc; "make {kind} {name}{guarded}"),
        (Change::Put(new), Expect::At(version)) => {
            let part = part_changed(store, version, new);
            format!(in alloc; "{part} of {kind} {name} at {version}{guarded}")
        }
        (Change::Remove, Expect::At(version)) => {
            format!(in alloc; "remove {kind} {name} at {version}{guarded}")
        }
        (Change::Remove, Expect::Absent) => format!(in alloc; "remove nothing"),
    }
}

/// What the controller plans next to this name of the namespace `default`, told in a line: `nothing` where nothing is due. Where
/// an event is given, it happens between the look and the plan.
pub fn told_plan(
    alloc: Global,
    plane: &mut Plane,
    controller: Controller,
    name: &str,
    event: Option<Event<'_>>,
) -> Result<String, AllocError> {
    let name = name_of(alloc, name)?;
    match planned(alloc, plane, controller, &name, event)? {
        Some(plan) => told(alloc, plane.store(), &plan),
        None => String::from_str(alloc, "nothing"),
    }
}

/// What was written at a version, and how many entries its look saw.
pub fn written(alloc: Global, plane: &Plane, version: u64) -> Result<String, AllocError> {
    match plane.store().entry(version) {
        Some(entry) => {
            let (kind, name) = (entry.key.kind.as_str(), entry.key.name.name.as_str());
            format!(in alloc; "{kind} {name}, seen {}", entry.seen)
        }
        None => format!(in alloc; "nothing at {version}"),
    }
}

/// The conditions of an object of the namespace `default`, each with its truth and its reason.
pub fn conditions(
    alloc: Global,
    plane: &Plane,
    kind: Kind,
    name: &str,
) -> Result<String, AllocError> {
    let mut told = String::new(alloc);
    let Some(object) = standing(plane.store(), kind, "default", name) else {
        return Ok(told);
    };
    for condition in object.body.conditions() {
        let (of, truth, reason) = (condition.name, condition.truth, &condition.reason);
        told.push_str(format!(in alloc; "{of:?} {truth:?} {reason}, ")?.as_str())?;
    }
    Ok(told)
}
