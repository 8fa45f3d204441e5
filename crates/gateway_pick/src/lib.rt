//! A gateway: it follows the published Tables by polls, and picks a Revision for a number.
//!
//! It knows the Tables that the polls told it of, in order of namespace and name, and the version up to which it was told. A body
//! that isn't taken changes nothing. Of any hundred consecutive numbers, each row of a host is picked as often as its percent
//! says.
#![tactic(auto)]

mod error;
mod gateway;
mod picks;
mod polls;
mod reading;
mod rows;
mod rules;
mod search;
mod tables;
mod uids;
mod versions;

pub use error::FollowError;
pub use gateway::Gateway;
pub use picks::pick_among;
pub use tables::Published;
