//! Turns, settles, and the cursor.
use super::bodies::{CONFIGURATION, CONFIGURATION_IMAGE, SERVICE};
use super::plays::{
    FIRST, Row, create, first_wrong, first_wrong_after, new_plane, wrong_and_written,
};
use crate::clients::Ask;
use crate::events::{Answer, Event, happen};
use crate::plans::{conditions, written};
use resource_types::{ClientKind, Controller, Kind, Truth};
use std::alloc::{AllocError, Global};
use std::test::Fail;
use step_scheduler::{Plane, StepOutcome};
use version_store::Applied;

const MADE: Answer = Answer::Code(201);

fn turns(entries: u64) -> Row {
    (Event::Turn, Answer::Count(entries))
}

fn steps(outcome: StepOutcome) -> Row {
    (Event::CursorStep, Answer::Stepped(outcome))
}

fn looks(seen: u64) -> Row {
    steps(StepOutcome::Looked { seen })
}

fn plans() -> Row {
    steps(StepOutcome::Planned)
}

fn writes(version: u64) -> Row {
    steps(StepOutcome::Wrote { version })
}

// The rollout of a Service: the turns, the entries in order, and the statuses that they leave.
#[test]
fn turns_of_a_rollout(rt: HostRuntime) -> Result<(), Fail> {
    let mut plane = new_plane(rt.alloc())?;
    let made = (create(ClientKind::Service, SERVICE), MADE);
    let rows = [made, turns(3), turns(3), turns(1), turns(0)];
    assert_eq!(rt; first_wrong(rt.alloc(), &mut plane, &rows)?, None);
    let mut version = 0;
    for want in [
        "nothing at 0",
        "Service hello, seen 0",
        "Configuration hello, seen 1",
        "Revision hello-00001, seen 2",
        "Revision hello-00001, seen 3",
        "Route hello, seen 4",
        "Configuration hello, seen 5",
        "Route hello, seen 6",
        "Service hello, seen 7",
        "nothing at 9",
    ] {
        let told = written(rt.alloc(), &plane, version)?;
        assert_eq!(rt; told.as_str(), want);
        version = 1u64.saturating_add(version);
    }
    for (kind, name, want) in [
        (
            Kind::Revision,
            "hello-00001",
            "ContainerHealthy Unknown NotReported, HasBeenReady False , Ready Unknown NotReported, ResourcesAvailable Unknown NotReported, ",
        ),
        (Kind::Configuration, "hello", "Ready Unknown NotReported, "),
        (
            Kind::Route,
            "hello",
            "AllTrafficAssigned Unknown ConfigurationUnready, IngressReady Unknown NotPublished, Ready Unknown ConfigurationUnready, ",
        ),
        (
            Kind::Service,
            "hello",
            "ConfigurationsReady Unknown NotReported, Ready Unknown NotReported, RoutesReady Unknown ConfigurationUnready, ",
        ),
    ] {
        let told = conditions(rt.alloc(), &plane, kind, name)?;
        assert_eq!(rt; told.as_str(), want, "of {kind:?} {name}");
    }
    Ok(())
}

// A turn drops what a slot holds, and looks anew: the Revision that it makes is of the present generation.
#[test]
fn a_turn_keeps_no_look(rt: HostRuntime) -> Result<(), Fail> {
    let own = Event::Step(Controller::Configuration, "hello");
    let changed = Ask::Replace(ClientKind::Configuration, "hello", CONFIGURATION_IMAGE);
    let rows = [
        (create(ClientKind::Configuration, CONFIGURATION), MADE),
        (own, Answer::Stepped(StepOutcome::Looked { seen: 1 })),
        (Event::Client(changed), Answer::Code(200)),
        turns(2),
        (own, Answer::Stepped(StepOutcome::Looked { seen: 4 })),
    ];
    let plane = new_plane(rt.alloc())?;
    let (wrong, told) = wrong_and_written(rt.alloc(), plane, &rows, 3)?;
    assert_eq!(rt;
        (wrong, told.as_str()),
        (None, "Revision hello-00002, seen 2")
    );
    Ok(())
}

// The cursor stays while its slot holds something, takes in keys that come, and passes over those that cease.
#[test]
fn the_cursor_over_changing_keys(rt: HostRuntime) -> Result<(), Fail> {
    let nothing = steps(StepOutcome::Nothing);
    let removed = Event::Client(Ask::Remove(Kind::Configuration, "hello"));
    let rows = [
        steps(StepOutcome::Empty),
        (create(ClientKind::Configuration, CONFIGURATION), MADE),
        // Configuration, and then the Revision that it made, the Collector, and the first key again.
        looks(1),
        plans(),
        writes(2),
        looks(2),
        plans(),
        writes(3),
        looks(3),
        nothing,
        looks(3),
        plans(),
        writes(4),
        looks(4),
        nothing,
        looks(4),
        // The Collector's key ceases, and the orphan alone is left.
        (removed, Answer::Code(200)),
        looks(5),
        plans(),
        writes(6),
        steps(StepOutcome::Empty),
    ];
    let plane = new_plane(rt.alloc())?;
    let wrong = first_wrong_after(rt.alloc(), plane, &[], &rows)?;
    assert_eq!(rt; wrong, None);
    Ok(())
}

// What an event answers, how many keys are touched by then, and how many looks there were.
fn touched_after(
    alloc: Global,
    plane: &mut Plane,
    event: Event<'_>,
) -> Result<(Answer, u64, u64), AllocError> {
    let answer = happen(alloc, plane, event)?;
    let touched = plane.touched_count()?;
    Ok((answer, touched, plane.looks()))
}

// A new plane and a settled one have no touched key, and a settle of them makes one turn and no look. A report touches its
// Revision.
#[test]
fn touched_keys(rt: HostRuntime) -> Result<(), Fail> {
    let mut plane = new_plane(rt.alloc())?;
    let report = Event::Report(FIRST, Truth::True);
    let done = Applied::Done { version: 5 };
    for (event, answer, touched, looked) in [
        (report, Answer::Reported(None), 0, 0),
        (Event::Settle, Answer::Count(1), 0, 0),
        // The Configuration and its Collector.
        (create(ClientKind::Configuration, CONFIGURATION), MADE, 2, 0),
        (Event::Settle, Answer::Count(3), 0, 7),
        (Event::Settle, Answer::Count(1), 0, 7),
        (report, Answer::Reported(Some(done)), 1, 7),
        (Event::Settle, Answer::Count(3), 0, 13),
    ] {
        let after = touched_after(rt.alloc(), &mut plane, event)?;
        assert_eq!(rt; after, (answer, touched, looked), "after {event:?}");
    }
    Ok(())
}
