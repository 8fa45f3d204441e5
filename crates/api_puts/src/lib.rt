//! What a manifest makes of what stands: the object that it asks for, its put, and the reply that shows what then stands.
//!
//! A put is a plan, and changes nothing itself.
#![tactic(auto)]

mod objects;
mod puts;

pub use puts::{Place, make, put_manifest, replace};
