//! What is served, where, and how long.

use control_rules::Settings;
use json_tree::Text;

/// What is served, where, and how long.
#[derive(Debug, Drop)]
pub struct ServeOptions {
    /// The settings of the plane.
    pub settings: Settings,
    /// How many automatic steps follow each request.
    pub auto: u64,
    /// The address at which the gate listens, of 1 to 255 bytes.
    pub address: Text,
    /// How many connections are served at most.
    pub sessions: u64,
}
