//! The plan of a look, made behind another write.
use super::bodies::{CONFIGURATION, ROUTE_FIRST, SERVICE};
use super::plays::{
    FIRST, collecting_plane, create, new_plane, play, routed_configuration, two_revisions, work,
};
use crate::clients::Ask;
use crate::events::Event;
use crate::plans::told_plan;
use resource_types::{ClientKind, Controller, Kind};
use std::alloc::{AllocError, Global};
use std::test::Fail;
use step_scheduler::Plane;

// The controller looks, the event happens, and the controller plans: that plan, and what is due by then.
fn planned_after(
    alloc: Global,
    mut plane: Plane,
    before: &[Event<'_>],
    controller: Controller,
    name: &str,
    event: Event<'_>,
) -> Result<(String, String), AllocError> {
    play(alloc, &mut plane, before)?;
    let told = told_plan(alloc, &mut plane, controller, name, Some(event))?;
    let now = told_plan(alloc, &mut plane, controller, name, None)?;
    Ok((told, now))
}

fn remove(kind: Kind, name: &'static str) -> Event<'static> {
    Event::Client(Ask::Remove(kind, name))
}

#[test]
fn of_a_service(rt: HostRuntime) -> Result<(), Fail> {
    let event = remove(Kind::Service, "hello");
    let before = [create(ClientKind::Service, SERVICE)];
    let plane = new_plane(rt.alloc())?;
    let (told, now) = planned_after(
        rt.alloc(),
        plane,
        &before,
        Controller::Service,
        "hello",
        event,
    )?;
    assert_eq!(rt;
        (told.as_str(), now.as_str()),
        ("make Configuration hello", "nothing")
    );
    Ok(())
}

#[test]
fn of_a_configuration(rt: HostRuntime) -> Result<(), Fail> {
    let event = remove(Kind::Configuration, "hello");
    let before = [create(ClientKind::Configuration, CONFIGURATION)];
    let plane = new_plane(rt.alloc())?;
    let (told, now) = planned_after(
        rt.alloc(),
        plane,
        &before,
        Controller::Configuration,
        "hello",
        event,
    )?;
    assert_eq!(rt;
        (told.as_str(), now.as_str()),
        ("make Revision hello-00001", "nothing")
    );
    Ok(())
}

#[test]
fn of_a_revision(rt: HostRuntime) -> Result<(), Fail> {
    let event = work(Controller::Revision);
    let before = [
        create(ClientKind::Configuration, CONFIGURATION),
        work(Controller::Configuration),
    ];
    let plane = new_plane(rt.alloc())?;
    let (told, now) = planned_after(
        rt.alloc(),
        plane,
        &before,
        Controller::Revision,
        FIRST,
        event,
    )?;
    assert_eq!(rt;
        (told.as_str(), now.as_str()),
        ("status of Revision hello-00001 at 2", "nothing")
    );
    Ok(())
}

#[test]
fn of_the_collector(rt: HostRuntime) -> Result<(), Fail> {
    let event = create(ClientKind::Route, ROUTE_FIRST);
    let before = two_revisions();
    let plane = collecting_plane(rt.alloc())?;
    let (told, now) = planned_after(
        rt.alloc(),
        plane,
        &before,
        Controller::Collector,
        "hello",
        event,
    )?;
    assert_eq!(rt;
        (told.as_str(), now.as_str()),
        ("remove Revision hello-00001 at 2, guarded", "nothing")
    );
    Ok(())
}

#[test]
fn of_a_route(rt: HostRuntime) -> Result<(), Fail> {
    let event = remove(Kind::Route, "r");
    let before = routed_configuration();
    let plane = new_plane(rt.alloc())?;
    let (told, now) = planned_after(rt.alloc(), plane, &before, Controller::Route, "r", event)?;
    assert_eq!(rt;
        (told.as_str(), now.as_str()),
        ("pins of Revision hello-00001 at 5", "nothing")
    );
    Ok(())
}
