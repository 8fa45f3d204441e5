//! Planes, and what comes of a list of events.
use super::bodies::{CONFIGURATION, CONFIGURATION_IMAGE, ROUTE};
use crate::clients::Ask;
use crate::events::{Answer, Event, happen};
use crate::plans::written;
use resource_types::{ClientKind, Controller, Truth};
use std::alloc::{AllocError, Global};
use step_scheduler::{GcSettings, Plane, standard_settings};

pub const FIRST: &str = "hello-00001";

/// A plane with the standard settings.
pub fn new_plane(alloc: Global) -> Result<Plane, AllocError> {
    let settings = standard_settings(alloc)?;
    Ok(Plane::new(alloc, settings))
}

/// A plane in which each Revision that may be collected is.
pub fn collecting_plane(alloc: Global) -> Result<Plane, AllocError> {
    let mut settings = standard_settings(alloc)?;
    settings.gc = GcSettings {
        create: Some(172_800),
        active: Some(54_000),
        least: 0,
        most: Some(0),
    };
    Ok(Plane::new(alloc, settings))
}

pub fn create(kind: ClientKind, body: &'static str) -> Event<'static> {
    Event::Client(Ask::Create(kind, body))
}

pub fn work(controller: Controller) -> Event<'static> {
    match controller {
        Controller::Revision => Event::Work(controller, FIRST),
        Controller::Route => Event::Work(controller, "r"),
        _ => Event::Work(controller, "hello"),
    }
}

/// Configuration `hello` and its Revision, with their statuses, both ready: 6 entries.
pub fn ready_configuration() -> [Event<'static>; 6] {
    [
        create(ClientKind::Configuration, CONFIGURATION),
        work(Controller::Configuration),
        work(Controller::Configuration),
        Event::Report(FIRST, Truth::True),
        work(Controller::Revision),
        work(Controller::Configuration),
    ]
}

/// The same, and then Route `r` is made: 7 entries.
pub fn routed_configuration() -> [Event<'static>; 7] {
    let [made, built, shown, report, seen, ready] = ready_configuration();
    let route = create(ClientKind::Route, ROUTE);
    [made, built, shown, report, seen, ready, route]
}

/// A Configuration with two Revisions, of which the first may be collected: 4 entries.
pub fn two_revisions() -> [Event<'static>; 4] {
    [
        create(ClientKind::Configuration, CONFIGURATION),
        work(Controller::Configuration),
        Event::Client(Ask::Replace(ClientKind::Configuration, "hello", CONFIGURATION_IMAGE)),
        work(Controller::Configuration),
    ]
}

/// Lets the events happen, in order.
pub fn play(alloc: Global, plane: &mut Plane, events: &[Event<'_>]) -> Result<(), AllocError> {
    for event in events {
        happen(alloc, plane, *event)?;
    }
    Ok(())
}

/// An event, and what it must answer.
pub type Row = (Event<'static>, Answer);

/// The first row whose event answers otherwise, with that answer.
pub fn first_wrong(
    alloc: Global,
    plane: &mut Plane,
    rows: &[Row],
) -> Result<Option<(usize, Answer)>, AllocError> {
    for place in 0..rows.len() {
        let (event, want) = rows[place];
        let answer = happen(alloc, plane, event)?;
        if answer != want {
            return Ok(Some((place, answer)));
        }
    }
    Ok(None)
}

/// The same of a plane in which other events came before.
pub fn first_wrong_after(
    alloc: Global,
    mut plane: Plane,
    before: &[Event<'_>],
    rows: &[Row],
) -> Result<Option<(usize, Answer)>, AllocError> {
    play(alloc, &mut plane, before)?;
    first_wrong(alloc, &mut plane, rows)
}

/// The first wrong row as above, and what was then written at the version.
pub fn wrong_and_written(
    alloc: Global,
    mut plane: Plane,
    rows: &[Row],
    version: u64,
) -> Result<(Option<(usize, Answer)>, String), AllocError> {
    let wrong = first_wrong(alloc, &mut plane, rows)?;
    Ok((wrong, written(alloc, &plane, version)?))
}
