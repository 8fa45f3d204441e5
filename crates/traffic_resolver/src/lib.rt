//! What the targets of a Route come to: what is published for it, or the first target that isn't ready.
//!
//! - `found_of` looks a target up: a Revision that the target names must be ready now, the latest ready one of its
//!   Configuration only once.
//! - `resolve` decides by the first target that isn't ready, and else makes the rows and the targets that are published.
//!   No percent is scaled: those of the targets of one Revision are added.
//! - `host_of` is the host under which the Route, or one of its tags, is reached.
#![tactic(auto)]

mod hosts;
mod obstacles;
mod published;
mod resolution;
mod shares;
mod targets;

pub use control_rules::{Found, Named, Resolved};
pub use hosts::host_of;
pub use resolution::{RouteView, resolution_of, resolve, resolve_targets};
pub use targets::{found_all, found_of};
