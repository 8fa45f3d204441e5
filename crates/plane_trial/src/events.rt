//! Events of a plane, and what they answer.
use crate::clients::{Ask, make};
use json_tree::Text;
use resource_types::{Controller, Name, Part, SlotKey, Truth};
use std::alloc::{AllocError, Global};
use step_scheduler::{Plane, Report, ReportError, StepOutcome};
use version_store::Applied;

/// An event of a plane. Names are of the namespace `default`.
#[derive(Clone, Copy, Debug)]
pub enum Event<'a> {
    /// A call of a client.
    Client(Ask<'a>),
    /// A report that both parts of the Revision of this name have this truth.
    Report(&'a str, Truth),
    /// A step of this controller on this name.
    Step(Controller, &'a str),
    /// A look, a plan and a write of this controller on this name.
    Work(Controller, &'a str),
    /// A step of the cursor.
    CursorStep,
    /// A turn.
    Turn,
    /// A settle.
    Settle,
}

/// What an event answered.
#[derive(Clone, Copy, Debug, PartialEq, Eq)]
pub enum Answer {
    /// The code of a reply.
    Code(u16),
    /// What came of a report; nothing where no Revision of the name stands.
    Reported(Option<Applied>),
    /// What came of a step.
    Stepped(StepOutcome),
    /// The number of entries of a turn, or of turns of a settle.
    Count(u64),
}

/// A name of the namespace `default`.
pub fn name_of(alloc: Global, name: &str) -> Result<Name, AllocError> {
    Ok(Name {
        space: Text::new(alloc, "default")?,
        name: Text::new(alloc, name)?,
    })
}

fn key_of(alloc: Global, controller: Controller, name: &str) -> Result<SlotKey, AllocError> {
    Ok(SlotKey {
        controller,
        name: name_of(alloc, name)?,
    })
}

fn part_of(alloc: Global, truth: Truth) -> Result<Part, AllocError> {
    Ok(Part {
        truth,
        reason: Text::new(alloc, "")?,
        message: Text::new(alloc, "")?,
    })
}

fn report_of(alloc: Global, name: &str, truth: Truth) -> Result<Report, AllocError> {
    Ok(Report {
        revision: name_of(alloc, name)?,
        resources: part_of(alloc, truth)?,
        container: part_of(alloc, truth)?,
    })
}

fn reported(answer: Result<Applied, ReportError>) -> Result<Answer, AllocError> {
    match answer {
        Ok(applied) => Ok(Answer::Reported(Some(applied))),
        Err(ReportError::NoSuchRevision) => Ok(Answer::Reported(None)),
        Err(ReportError::Memory) => Err(AllocError),
    }
}

// A look, a plan and a write. The answer is the last step's.
fn work(plane: &mut Plane, key: &SlotKey) -> Result<StepOutcome, AllocError> {
    plane.step(key)?;
    plane.step(key)?;
    let answer = plane.step(key)?;
    Ok(answer)
}

/// Lets the event happen.
pub fn happen(alloc: Global, plane: &mut Plane, event: Event<'_>) -> Result<Answer, AllocError> {
    match event {
        Event::Client(ask) => Ok(Answer::Code(make(alloc, plane, ask)?)),
        Event::Report(name, truth) => {
            let report = report_of(alloc, name, truth)?;
            reported(plane.report(report))
        }
        Event::Step(controller, name) => {
            let key = key_of(alloc, controller, name)?;
            Ok(Answer::Stepped(plane.step(&key)?))
        }
        Event::Work(controller, name) => {
            let key = key_of(alloc, controller, name)?;
            Ok(Answer::Stepped(work(plane, &key)?))
        }
        Event::CursorStep => Ok(Answer::Stepped(plane.cursor_step()?)),
        Event::Turn => Ok(Answer::Count(plane.turn()?)),
        Event::Settle => Ok(Answer::Count(plane.settle()?)),
    }
}
