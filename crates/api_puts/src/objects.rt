//! The object that a manifest asks for.
ghost use Rattle.std.specs.Prelude.{◌≡◌, IfOk};
ghost use Rattle.std.specs.Option.{option_copied};
ghost use Rattle.resource_types.specs.Objects.{status_of};
ghost use Rattle.resource_types.specs.Lookups.{key_of};
ghost use Rattle.resource_types.specs.Objects as kinds;
ghost use Rattle.api_puts.specs.Objects as spec;

use json_tree::{Copied, Text};
use resource_types::{
    Body, Key, Kind, Manifest, ManifestSpec, Meta, Name, Object, ObjectStatus, Owner,
};
use std::alloc::{AllocError, Global};
use version_store::Stamp;

fn status_of(alloc: Global, object: &Object) -> Result<ObjectStatus, AllocError>
    ensures { IfOk result (λ s. s ≡ status_of object.now.body) }
{
    match &object.body {
        Body::Service { status, .. } => status.copy(alloc),
        Body::Configuration { status, .. } => status.copy(alloc),
        Body::Revision { status, .. } => status.copy(alloc),
        Body::Route { status, .. } => status.copy(alloc),
        _ => ObjectStatus::empty(alloc),
    }
}

fn status_over(alloc: Global, old: Option<&Object>) -> Result<ObjectStatus, AllocError>
    ensures { IfOk result (λ s. s ≡ kinds.status_over (option_copied old.entry)) }
{
    match old {
        Some(object) => status_of(alloc, object),
        None => ObjectStatus::empty(alloc),
    }
}

fn owner_of(alloc: Global, old: Option<&Object>) -> Result<Option<Owner>, AllocError>
    ensures { IfOk result (λ o. o ≡ kinds.owner_of (option_copied old.entry)) }
{
    match old {
        Some(object) => object.meta.owner.copy(alloc),
        None => Ok(None),
    }
}

fn body_of(asked: ManifestSpec, status: ObjectStatus) -> Body
    ensures { result ≡ spec.body_of asked status }
{
    match asked {
        ManifestSpec::Service { template, traffic } => Body::Service {
            template,
            traffic,
            status,
        },
        ManifestSpec::Configuration { template } => Body::Configuration { template, status },
        ManifestSpec::Route { traffic } => Body::Route { traffic, status },
    }
}

/// What a manifest makes of the object that stands: labels, annotations and spec are as given, owner and status stay.
pub fn made_over(
    alloc: Global,
    key: Key,
    old: Option<&Object>,
    manifest: Manifest,
) -> Result<Object, AllocError>
    ensures { IfOk result (λ o. o ≡ spec.made_over key (option_copied old.entry) manifest) }
{
    let owner = owner_of(alloc, old)?;
    let status = status_over(alloc, old)?;
    Ok(Object {
        key,
        meta: Meta {
            stamp: Stamp {
                version: 0,
                generation: 0,
                uid: 0,
                created: 0,
            },
            owner,
            labels: manifest.labels,
            annotations: manifest.annotations,
        },
        body: body_of(manifest.spec, status),
    })
}

/// A key in new memory.
pub fn key_of(alloc: Global, kind: Kind, space: &str, name: &str) -> Result<Key, AllocError>
    ensures { IfOk result (λ k. k ≡ key_of kind space.now name.now) }
{
    Ok(Key {
        kind,
        name: Name {
            space: Text::new(alloc, space)?,
            name: Text::new(alloc, name)?,
        },
    })
}
