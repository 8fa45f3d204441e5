//! What the controllers have in common: what a look reads, what it keeps, and the plan that follows.
//!
//! - Each look keeps an `Option<Due>`: the first difference that it found, with all that its plan puts and nothing else.
//! - `plan_of` makes the plan, so a controller is its look alone.
//! - Whatever stands is borrowed by its key and its body, and copied only where it is put.
//! - A status is compared apart from its times; those move where truths do, and are set in the plan.
#![tactic(auto)]

mod due;
mod lookups;
mod owners;
mod plans;
mod sameness;
mod settling;
mod statements;
mod templates;
mod texts;

pub use due::{Due, plan_of};
pub use lookups::{is_orphan, standing};
pub use owners::owner_by;
pub use plans::{Frame, Removed, frame_of, removal_of};
pub use sameness::same_untimed;
pub use settling::{Settling, settle};
pub use statements::{about, condition_of, holding, stated};
pub use templates::template_of;
pub use texts::is_blank;
