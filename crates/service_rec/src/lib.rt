//! The Service controller: a Service's Configuration and its Route are made and kept as the Service has them, and its
//! status is what these two say.
//!
//! One difference is mended at a time, in this order: the Configuration is made, its template is put, the Route is made,
//! its targets are put, and last the status. What is only read is borrowed.
#![tactic(auto)]

mod children;
mod service;
mod status;
mod targets;

pub use service::ServiceRec;
