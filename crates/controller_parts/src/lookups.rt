//! What stands, by its key and its body.
ghost use Rattle.std.specs.Prelude.{◌≡◌, IfSome};
ghost use Rattle.std.specs.Option.{option_copied};
ghost use Rattle.resource_types.specs.Objects.{IsOf};
ghost use Rattle.resource_types.specs.Lookups.{state};
ghost use Rattle.control_rules.specs.Standing.{standing, is_orphan};
ghost use Rattle.controller_parts.specs.Names.{named};

use json_tree::Text;
use resource_types::{Kind, Object, owner_stands, standing as keyed};
use version_store::Store;

/// The object of the kind that stands under the name, by its key and its body.
#[tactic(auto, unfolding(control_rules::specs::Standing::standing))]
pub fn standing<'a>(
    store: &'a Store<Object>,
    kind: Kind,
    space: &Text,
    name: &Text,
) -> Option<&'a Object>
    ensures value { option_copied result ≡ standing kind (named space.now name.now) (state store.now.entries) }
    ensures kind { IfSome (option_copied result) (IsOf kind) }
{
    let object = keyed(store, kind, space.as_str(), name.as_str())?;
    if object.is_of(kind) {
        Some(object)
    } else {
        None
    }
}

/// Whether the object has an owner, and it doesn't stand.
#[tactic(auto, unfolding(control_rules::specs::Standing::is_orphan))]
pub fn is_orphan(store: &Store<Object>, object: &Object) -> bool
    ensures { result ≡ is_orphan (state store.now.entries) object.now }
{
    match &object.meta.owner {
        Some(owner) => !owner_stands(store, &object.key.name.space, owner),
        None => false,
    }
}
