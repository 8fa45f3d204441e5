//! Steps of slots, with other events between them.
use super::bodies::{CONFIGURATION, CONFIGURATION_IMAGE, ROUTE, ROUTE_FIRST};
use super::plays::{
    FIRST, Row, collecting_plane, create, first_wrong_after, new_plane, ready_configuration,
    two_revisions, wrong_and_written,
};
use crate::clients::Ask;
use crate::events::{Answer, Event};
use resource_types::{ClientKind, Controller, Kind, Truth};
use std::test::Fail;
use step_scheduler::StepOutcome;
use version_store::Applied;

const PLANNED: Answer = Answer::Stepped(StepOutcome::Planned);

const NOTHING: Answer = Answer::Stepped(StepOutcome::Nothing);

const UNKNOWN: Answer = Answer::Stepped(StepOutcome::Unknown);

const DONE: Answer = Answer::Code(200);

const MADE: Answer = Answer::Code(201);

fn looked(seen: u64) -> Answer {
    Answer::Stepped(StepOutcome::Looked { seen })
}

fn wrote(version: u64) -> Answer {
    Answer::Stepped(StepOutcome::Wrote { version })
}

fn stale(newer: u64) -> Answer {
    Answer::Stepped(StepOutcome::Stale { newer })
}

fn step(controller: Controller) -> Event<'static> {
    match controller {
        Controller::Revision => Event::Step(controller, FIRST),
        Controller::Route => Event::Step(controller, "r"),
        _ => Event::Step(controller, "hello"),
    }
}

fn made() -> Row {
    (create(ClientKind::Configuration, CONFIGURATION), MADE)
}

fn changed() -> Row {
    let ask = Ask::Replace(ClientKind::Configuration, "hello", CONFIGURATION_IMAGE);
    (Event::Client(ask), DONE)
}

fn removed(kind: Kind, name: &'static str) -> Row {
    (Event::Client(Ask::Remove(kind, name)), DONE)
}

fn routed() -> Row {
    (create(ClientKind::Route, ROUTE_FIRST), MADE)
}

// The Revision is made, then the status is put, and then nothing is left. A report of the Revision is kept once.
#[test]
fn steps_of_a_configuration(rt: HostRuntime) -> Result<(), Fail> {
    let own = step(Controller::Configuration);
    let rows = [
        made(),
        (own, looked(1)),
        (own, PLANNED),
        (own, wrote(2)),
        (own, looked(2)),
        (own, PLANNED),
        (own, wrote(3)),
        (own, looked(3)),
        (own, NOTHING),
    ];
    let plane = new_plane(rt.alloc())?;
    let wrong = first_wrong_after(rt.alloc(), plane, &[], &rows)?;
    assert_eq!(rt; wrong, None);
    Ok(())
}

// A put of the same object between the plan and its write refuses it, and the next step looks anew.
#[test]
fn a_put_makes_a_status_stale(rt: HostRuntime) -> Result<(), Fail> {
    let own = step(Controller::Configuration);
    let rows = [
        made(),
        (own, looked(1)),
        (own, PLANNED),
        (own, wrote(2)),
        (own, looked(2)),
        (own, PLANNED),
        changed(),
        (own, stale(3)),
        (own, looked(3)),
    ];
    let plane = new_plane(rt.alloc())?;
    let wrong = first_wrong_after(rt.alloc(), plane, &[], &rows)?;
    assert_eq!(rt; wrong, None);
    Ok(())
}

// A put of another object than the plan's doesn't: the Revision is made as it was seen, of generation 1.
#[test]
fn a_put_leaves_a_creation(rt: HostRuntime) -> Result<(), Fail> {
    let own = step(Controller::Configuration);
    let rows = [
        made(),
        (own, looked(1)),
        (own, PLANNED),
        changed(),
        (own, wrote(3)),
    ];
    let plane = new_plane(rt.alloc())?;
    let (wrong, told) = wrong_and_written(rt.alloc(), plane, &rows, 3)?;
    assert_eq!(rt;
        (wrong, told.as_str()),
        (None, "Revision hello-00001, seen 1")
    );
    Ok(())
}

#[test]
fn reports_and_what_is_in_use(rt: HostRuntime) -> Result<(), Fail> {
    let same = Answer::Reported(Some(Applied::Same { version: 4 }));
    let done = Answer::Reported(Some(Applied::Done { version: 7 }));
    let rows = [
        (Event::Report(FIRST, Truth::True), same),
        (Event::Report("nobody", Truth::True), Answer::Reported(None)),
        (
            Event::Client(Ask::Remove(Kind::Revision, FIRST)),
            Answer::Code(409),
        ),
        (Event::Report(FIRST, Truth::False), done),
    ];
    let plane = new_plane(rt.alloc())?;
    let wrong = first_wrong_after(rt.alloc(), plane, &ready_configuration(), &rows)?;
    assert_eq!(rt; wrong, None);
    Ok(())
}

// A Route is made between the look at an orphan and its guarded removal.
#[test]
fn a_route_keeps_an_orphan(rt: HostRuntime) -> Result<(), Fail> {
    let own = step(Controller::Revision);
    let rows = [
        removed(Kind::Configuration, "hello"),
        (own, looked(7)),
        routed(),
        (own, PLANNED),
        (own, stale(8)),
        (own, looked(8)),
        (own, NOTHING),
    ];
    let plane = new_plane(rt.alloc())?;
    let wrong = first_wrong_after(rt.alloc(), plane, &ready_configuration(), &rows)?;
    assert_eq!(rt; wrong, None);
    Ok(())
}

#[test]
fn steps_of_a_route(rt: HostRuntime) -> Result<(), Fail> {
    let (own, work) = (step(Controller::Route), Event::Work(Controller::Route, "r"));
    let rows = [
        (create(ClientKind::Route, ROUTE), MADE),
        (work, wrote(8)),
        (work, wrote(9)),
        (work, wrote(10)),
        (own, looked(10)),
        (own, NOTHING),
    ];
    let plane = new_plane(rt.alloc())?;
    let wrong = first_wrong_after(rt.alloc(), plane, &ready_configuration(), &rows)?;
    assert_eq!(rt; wrong, None);
    Ok(())
}

#[test]
fn the_collector_removes_one(rt: HostRuntime) -> Result<(), Fail> {
    let own = step(Controller::Collector);
    let rows = [
        (own, looked(4)),
        (own, PLANNED),
        (own, wrote(5)),
        (
            Event::Client(Ask::Remove(Kind::Revision, FIRST)),
            Answer::Code(404),
        ),
        (own, looked(5)),
        (own, NOTHING),
    ];
    let plane = collecting_plane(rt.alloc())?;
    let wrong = first_wrong_after(rt.alloc(), plane, &two_revisions(), &rows)?;
    assert_eq!(rt; wrong, None);
    Ok(())
}

#[test]
fn a_route_keeps_a_collected_one(rt: HostRuntime) -> Result<(), Fail> {
    let own = step(Controller::Collector);
    let rows = [(own, looked(4)), routed(), (own, PLANNED), (own, stale(5))];
    let plane = collecting_plane(rt.alloc())?;
    let wrong = first_wrong_after(rt.alloc(), plane, &two_revisions(), &rows)?;
    assert_eq!(rt; wrong, None);
    Ok(())
}

// A name that ceased and came again between two steps: the slot keeps its look. One that ceased and is stepped: it is idle.
#[test]
fn a_name_that_comes_again(rt: HostRuntime) -> Result<(), Fail> {
    let own = step(Controller::Configuration);
    let rows = [
        made(),
        (own, looked(1)),
        removed(Kind::Configuration, "hello"),
        made(),
        (own, PLANNED),
        (own, wrote(4)),
        (own, looked(4)),
        removed(Kind::Configuration, "hello"),
        (own, UNKNOWN),
        made(),
        (own, looked(6)),
    ];
    let plane = new_plane(rt.alloc())?;
    let wrong = first_wrong_after(rt.alloc(), plane, &[], &rows)?;
    assert_eq!(rt; wrong, None);
    Ok(())
}
