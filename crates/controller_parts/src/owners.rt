//! Owners of the objects that a controller makes.
ghost use Rattle.std.specs.Prelude.{◌≡◌, IfOk};
ghost use Rattle.control_rules.specs.Differences.{owner_by};

use json_tree::Copied;
use resource_types::{Kind, Object, Owner};
use std::alloc::{AllocError, Global};

/// The object as an owner of the kind.
pub fn owner_by(alloc: Global, kind: Kind, object: &Object) -> Result<Owner, AllocError>
    ensures { IfOk result (λ owner. owner ≡ owner_by kind object.now) }
{
    Ok(Owner {
        kind,
        name: object.key.name.name.copy(alloc)?,
        uid: object.meta.stamp.uid,
    })
}
