//! Which call of the API a request's method and target make.
//!
//! A target is a path and, behind the first `?`, a query. A path is cut at its slashes, and nothing in it is
//! percent-decoded. The paths of objects are those of the Knative Serving API; the paths under `/control/`, and what
//! queries may ask, are this project's own. No call here takes memory.
#![tactic(auto)]

mod calls;
mod cuts;
mod methods;
mod queries;
mod resources;
mod route;
mod versions;

pub use calls::{Call, PathError};
pub use route::route_of;
