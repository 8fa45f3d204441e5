//! What a look sees of a Route's traffic.
use control_rules::{Found, Resolved};
use json_tree::Text;
use resource_types::{Name, Object};

/// What a look sees of a Route that stands: found and resolved once, and read by each difference.
#[derive(Clone, Copy)]
pub struct Traffic<'a> {
    /// The domain in which the hosts of Routes lie.
    pub domain: &'a Text,
    /// The Route's name.
    pub route: &'a Name,
    /// The Route.
    pub object: &'a Object,
    /// What each of its targets means, in their order.
    pub found: &'a [Found],
    /// What its targets come to.
    pub resolved: &'a Resolved,
}
