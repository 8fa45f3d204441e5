//! The Route controller: what is published for a Route, and which Revisions it holds.
//!
//! A look finds the first difference of a Route's name, in this order, and the view is what is due
//! by it:
//!
//! - a Route whose owner is gone is removed;
//! - a Table of the name that isn't the Route's is removed;
//! - while every target means a Revision that counts as ready, each such Revision gets the Route's
//!   pin,
//! - and only then the Table is made, or gets what the targets come to;
//! - the Route gets its status, which tells what its Table publishes;
//! - and only then a pin goes that neither the Table nor the status needs.
//!
//! So a Revision that is published or told of has the Route's pin from before until after.
#![tactic(auto)]

mod controller;
mod lacking;
mod pins;
mod removals;
mod spare;
mod statuses;
mod tables;
mod traffic;

pub use controller::{RouteBy, RouteRec};
pub use statuses::route_status;
