//! On which names each controller works: the names of Services, of Configurations, of Revisions, again of Configurations,
//! and for the Route controller those of Routes, of Tables and of all pins.
//!
//! Whether a name is one of them is asked without memory. The keys of a controller are listed in order, each once, and the
//! next key behind one that was stepped is found among those of all controllers, where the first follows the last.
#![tactic(auto)]

mod keys;
mod names;
mod nearest;
mod next;
mod routed;

pub use keys::keys_of;
pub use names::is_key;
pub use next::next_key;
