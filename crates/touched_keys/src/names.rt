//! Tests of names and keys.
ghost use Rattle.std.specs.Prelude.{◌≡◌, ◌&&◌, bytes_eq};
ghost use Rattle.std.specs.List.{list_any};
ghost use Rattle.resource_types.specs.Objects.{same_kind};
ghost use Rattle.control_rules.specs.Slots.{same_name};
ghost use Rattle.control_touches.specs.Touches.{is_under, is_one};

use json_tree::Text;
use resource_types::{Key, Kind, Name};

/// Whether two names are one.
pub fn is_same_name(one: &Name, other: &Name) -> bool
    ensures { result ≡ same_name one.now other.now }
{
    one.space == other.space && one.name == other.name
}

/// Whether the text begins with the name and a dash.
#[tactic(auto, unfolding(control_touches::specs::Touches::is_under))]
pub fn is_under(name: &Text, text: &Text) -> bool
    ensures { result ≡ is_under name.now text.now }
{
    let name = name.bytes();
    let text = text.bytes();
    text.starts_with(name) && text[name.len()..].starts_with(b"-")
}

/// Whether the kind is one of these.
pub fn is_among(kind: Kind, kinds: &[Kind]) -> bool
    ensures { result ≡ list_any (same_kind kind) kinds.now }
{
    kinds.iter().any(|other| kind == *other)
}

/// Whether the key has the name, and is of one of the kinds.
#[tactic(auto, unfolding(control_touches::specs::Touches::is_one))]
pub fn is_one(kinds: &[Kind], name: &Name, key: &Key) -> bool
    ensures { result ≡ is_one kinds.now name.now key.now }
{
    is_among(key.kind, kinds) && is_same_name(&key.name, name)
}

/// Whether the key is of the kind, and in the namespace.
pub fn is_in(kind: Kind, space: &Text, key: &Key) -> bool
    ensures { result ≡ (same_kind key.now.kind kind && bytes_eq key.now.name.space space.now) }
{
    key.kind == kind && key.name.space == *space
}
