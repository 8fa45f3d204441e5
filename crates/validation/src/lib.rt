//! Manifests of Services, Configurations and Routes: the defaults that fill them, the rules that they keep, and what
//! must not change when one replaces another.
//!
//! The defaults and the rules are this project's profile of the Knative Serving API. A manifest is examined with its
//! defaults, and the first rule that it breaks is named, with the place in the manifest. Examining takes no memory.
#![tactic(auto)]

mod change;
mod defaults;
mod emptiness;
mod places;
mod rules;
mod targets;
mod templates;
mod verdict;

pub use change::{KeptName, check_change};
pub use defaults::with_defaults;
pub use places::{Invalid, Place, Rule, place_text, rule_text};
pub use rules::check;
