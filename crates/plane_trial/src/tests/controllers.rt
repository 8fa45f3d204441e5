//! What each controller plans behind each event of a sequence: a row for each difference of its list, and those where
//! nothing is due.
use super::bodies::{
    CONFIGURATION, CONFIGURATION_IMAGE, CONFIGURATION_LATER, ROUTE, ROUTE_FIRST, ROUTE_TAG,
    SERVICE, SERVICE_IMAGE, SERVICE_TAG,
};
use super::plays::{FIRST, collecting_plane, create, new_plane, play, ready_configuration, work};
use crate::clients::Ask;
use crate::events::{Event, happen};
use crate::plans::told_plan;
use resource_types::{ClientKind, Controller, Kind, Truth};
use std::alloc::{AllocError, Global};
use std::test::Fail;
use step_scheduler::Plane;

/// An event, and what is due behind it.
type Row = (Event<'static>, &'static str);

// The first row behind whose event something else is due to the name, with that.
fn first_unlike(
    alloc: Global,
    plane: &mut Plane,
    controller: Controller,
    name: &str,
    rows: &[Row],
) -> Result<Option<(usize, String)>, AllocError> {
    for place in 0..rows.len() {
        let (event, want) = rows[place];
        happen(alloc, plane, event)?;
        let told = told_plan(alloc, plane, controller, name, None)?;
        if told.as_str() != want {
            return Ok(Some((place, told)));
        }
    }
    Ok(None)
}

// The same of a plane in which other events came before.
fn first_unlike_after(
    alloc: Global,
    mut plane: Plane,
    before: &[Event<'_>],
    controller: Controller,
    name: &str,
    rows: &[Row],
) -> Result<Option<(usize, String)>, AllocError> {
    play(alloc, &mut plane, before)?;
    first_unlike(alloc, &mut plane, controller, name, rows)
}

fn replace(kind: ClientKind, name: &'static str, body: &'static str) -> Event<'static> {
    Event::Client(Ask::Replace(kind, name, body))
}

fn remove(kind: Kind, name: &'static str) -> Event<'static> {
    Event::Client(Ask::Remove(kind, name))
}

#[test]
fn differences_of_a_service(rt: HostRuntime) -> Result<(), Fail> {
    let service = work(Controller::Service);
    let rows = [
        (
            create(ClientKind::Service, SERVICE),
            "make Configuration hello",
        ),
        (service, "make Route hello"),
        (service, "status of Service hello at 1"),
        (
            replace(ClientKind::Service, "hello", SERVICE_IMAGE),
            "spec of Configuration hello at 2",
        ),
        (service, "status of Service hello at 4"),
        (
            replace(ClientKind::Service, "hello", SERVICE_TAG),
            "spec of Route hello at 3",
        ),
        (service, "status of Service hello at 6"),
        (Event::Settle, "nothing"),
    ];
    let plane = new_plane(rt.alloc())?;
    let unlike = first_unlike_after(rt.alloc(), plane, &[], Controller::Service, "hello", &rows)?;
    assert_eq!(rt; unlike, None);
    Ok(())
}

#[test]
fn differences_of_a_configuration(rt: HostRuntime) -> Result<(), Fail> {
    let configuration = work(Controller::Configuration);
    let rows = [
        (create(ClientKind::Service, SERVICE), "nothing"),
        (work(Controller::Service), "make Revision hello-00001"),
        (configuration, "status of Configuration hello at 2"),
        (configuration, "nothing"),
        (
            replace(ClientKind::Service, "hello", SERVICE_IMAGE),
            "nothing",
        ),
        (work(Controller::Service), "make Revision hello-00002"),
        (
            remove(Kind::Service, "hello"),
            "remove Configuration hello at 6",
        ),
        (configuration, "nothing"),
    ];
    let plane = new_plane(rt.alloc())?;
    let own = Controller::Configuration;
    let unlike = first_unlike_after(rt.alloc(), plane, &[], own, "hello", &rows)?;
    assert_eq!(rt; unlike, None);
    Ok(())
}

#[test]
fn differences_of_a_revision(rt: HostRuntime) -> Result<(), Fail> {
    let revision = work(Controller::Revision);
    let rows = [
        (create(ClientKind::Configuration, CONFIGURATION), "nothing"),
        (
            work(Controller::Configuration),
            "status of Revision hello-00001 at 2",
        ),
        (revision, "nothing"),
        (
            Event::Report(FIRST, Truth::True),
            "status of Revision hello-00001 at 3",
        ),
        (revision, "nothing"),
        (create(ClientKind::Route, ROUTE_FIRST), "nothing"),
        (remove(Kind::Configuration, "hello"), "nothing"),
        (
            remove(Kind::Route, "q"),
            "remove Revision hello-00001 at 5, guarded",
        ),
        (revision, "nothing"),
    ];
    let plane = new_plane(rt.alloc())?;
    let unlike = first_unlike_after(rt.alloc(), plane, &[], Controller::Revision, FIRST, &rows)?;
    assert_eq!(rt; unlike, None);
    Ok(())
}

#[test]
fn differences_of_the_collector(rt: HostRuntime) -> Result<(), Fail> {
    let removal = "remove Revision hello-00001 at 2, guarded";
    let rows = [
        (create(ClientKind::Configuration, CONFIGURATION), "nothing"),
        (work(Controller::Configuration), "nothing"),
        (
            replace(ClientKind::Configuration, "hello", CONFIGURATION_IMAGE),
            "nothing",
        ),
        (work(Controller::Configuration), removal),
        (create(ClientKind::Route, ROUTE_FIRST), "nothing"),
        (remove(Kind::Route, "q"), removal),
        (work(Controller::Collector), "nothing"),
    ];
    let plane = collecting_plane(rt.alloc())?;
    let own = Controller::Collector;
    let unlike = first_unlike_after(rt.alloc(), plane, &[], own, "hello", &rows)?;
    assert_eq!(rt; unlike, None);
    Ok(())
}

#[test]
fn differences_of_a_route(rt: HostRuntime) -> Result<(), Fail> {
    let route = work(Controller::Route);
    let rows = [
        (
            create(ClientKind::Route, ROUTE),
            "pins of Revision hello-00001 at 5",
        ),
        (route, "make Table r"),
        (route, "status of Route r at 7"),
        (route, "nothing"),
        (
            replace(ClientKind::Route, "r", ROUTE_TAG),
            "spec of Table r at 9",
        ),
        (route, "status of Route r at 11"),
        (route, "nothing"),
    ];
    let plane = new_plane(rt.alloc())?;
    let unlike = first_unlike_after(
        rt.alloc(),
        plane,
        &ready_configuration(),
        Controller::Route,
        "r",
        &rows,
    )?;
    assert_eq!(rt; unlike, None);
    Ok(())
}

// The Route goes over to the second Revision, is made again, and goes.
#[test]
fn differences_of_a_route_that_moves(rt: HostRuntime) -> Result<(), Fail> {
    let (route, second) = (work(Controller::Route), "hello-00002");
    let [made, status, built, report, truth, ready] = ready_configuration();
    let before = [
        made,
        status,
        built,
        report,
        truth,
        ready,
        create(ClientKind::Route, ROUTE),
        route,
        route,
        route,
        replace(ClientKind::Configuration, "hello", CONFIGURATION_LATER),
        work(Controller::Configuration),
        Event::Report(second, Truth::True),
        Event::Work(Controller::Revision, second),
    ];
    let rows = [
        (
            work(Controller::Configuration),
            "pins of Revision hello-00002 at 14",
        ),
        (route, "spec of Table r at 9"),
        (route, "status of Route r at 10"),
        (route, "pins of Revision hello-00001 at 8"),
        (route, "nothing"),
        (remove(Kind::Route, "r"), "remove Table r at 17"),
        (create(ClientKind::Route, ROUTE), "remove Table r at 17"),
        (remove(Kind::Route, "r"), "remove Table r at 17"),
        (route, "pins of Revision hello-00002 at 16"),
        (route, "nothing"),
    ];
    let plane = new_plane(rt.alloc())?;
    let unlike = first_unlike_after(rt.alloc(), plane, &before, Controller::Route, "r", &rows)?;
    assert_eq!(rt; unlike, None);
    Ok(())
}

#[test]
fn a_route_goes_with_its_service(rt: HostRuntime) -> Result<(), Fail> {
    let rows = [
        (create(ClientKind::Service, SERVICE), "nothing"),
        (Event::Settle, "nothing"),
        (remove(Kind::Service, "hello"), "remove Route hello at 7"),
        (Event::Work(Controller::Route, "hello"), "nothing"),
    ];
    let plane = new_plane(rt.alloc())?;
    let unlike = first_unlike_after(rt.alloc(), plane, &[], Controller::Route, "hello", &rows)?;
    assert_eq!(rt; unlike, None);
    Ok(())
}
