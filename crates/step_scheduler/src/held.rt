//! What a slot holds.
ghost use Rattle.std.specs.Prelude.{◌≡◌};
ghost use Rattle.control_rules.specs.Steps.{outcome_of};

use control_rules::StepOutcome;
use controller_parts::Due;
use resource_types::Object;
use version_store::{Applied, Plan};

/// What a slot holds that isn't idle.
#[derive(Drop)]
pub enum Held {
    /// What its controller found due when it looked, or that nothing was.
    View(Option<Due>),
    /// What its controller planned from that.
    Plan(Plan<Object>),
}

/// Where a slot is between two looks.
#[derive(Drop)]
pub enum Stage {
    /// It holds nothing.
    Idle,
    /// It has looked, and this is what its view means.
    Looked(Option<Plan<Object>>),
    /// It has planned.
    Planned,
}

/// What comes of a controller's write. That the object is the same is never answered to one.
pub fn outcome_of(applied: Applied) -> StepOutcome
    ensures { result ≡ outcome_of applied }
{
    match applied {
        Applied::Done { version } => StepOutcome::Wrote { version },
        Applied::Same { version: _ } => StepOutcome::Nothing,
        Applied::Stale { newer } => StepOutcome::Stale { newer },
        Applied::Exists { version } => StepOutcome::Stale { newer: version },
        Applied::Absent { last } => StepOutcome::Stale { newer: last },
    }
}
