//! Manifests and objects as JSON: `decode` reads what a client sends, or finds the first field that is wrong,
//! `encode_manifest` writes it, and `encode` writes what is shown of an object.
//!
//! Want of memory is an answer of each call that takes memory, and changes nothing.
#![tactic(auto)]

mod adding;
mod decoding;
mod encoding;
mod events;
mod fields;
mod lists;
mod objects;
mod polls;
mod reading;
mod revisions;
mod standing;
mod statuses;
mod tables;
mod writing;

pub use decoding::decode;
pub use encoding::{encode_manifest, have_same_bytes};
pub use fields::{DecodeError, Field, TargetField, path_text};
pub use objects::encode;
pub use polls::poll_json;
pub use standing::list_of;
