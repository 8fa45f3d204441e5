//! The objects of the control plane: their names, their parts and the six kinds; and the look-ups that every controller
//! asks of the objects that stand.
//!
//! Every type can be copied exactly ([`json_tree::Copied`]) and told apart exactly ([`json_tree::Alike`]). An empty
//! text stands for an absent one. Names of owners, targets, pins, rows and statuses are simple names: they mean objects
//! in the namespace of the object that keeps them.
#![tactic(auto)]

mod conditions;
mod item;
mod lookups;
mod manifests;
mod metadata;
mod names;
mod objects;
mod specification;
mod status;

pub use conditions::{CondName, Condition, Part, Truth};
pub use lookups::{
    current, current_revision, in_use, is_free, latest_created, latest_ready, newest_owned,
    newest_ready, owner_stands, standing, walk_after, walk_space,
};
pub use manifests::{Manifest, ManifestSpec, api_version, decimal_text, manifest_of};
pub use metadata::{Labels, Meta, Owner};
pub use names::{Actor, ClientKind, Controller, Key, Kind, Name, SlotKey};
pub use objects::{Body, Object, with_status};
pub use specification::{PodSpec, Row, Target, Template};
pub use status::ObjectStatus;
