//! Manifests of Routes.
ghost use Rattle.std.specs.Prelude.{◌≡◌, ◌≢◌, ◌↔◌, [], IfOk, IsTrue};
ghost use Rattle.resource_codec.specs.Written.{IsRegular, IsWell};
ghost use Rattle.codec_trial.specs.Routes.{route_named};

use json_tree::{Seq, Table, Text};
use resource_codec::have_same_bytes;
use resource_types::{Manifest, ManifestSpec, api_version};
use std::alloc::{AllocError, Global};

/// The manifest of a Route with no targets, of this name and of this namespace, which may be empty.
pub fn route(alloc: Global, name: &str, namespace: &str) -> Result<Manifest, AllocError>
    requires { name.now ≢ [] }
    ensures value { IfOk result (λ m. m ≡ route_named name.now namespace.now) }
    ensures regular { IfOk result IsRegular }
    ensures well { IfOk result IsWell }
{
    Ok(Manifest {
        api: Text::new(alloc, api_version())?,
        kind: Text::new(alloc, "Route")?,
        name: Text::new(alloc, name)?,
        namespace: Text::new(alloc, namespace)?,
        version: Text::new(alloc, "")?,
        labels: Table::new(alloc),
        annotations: Table::new(alloc),
        spec: ManifestSpec::Route {
            traffic: Seq::new(alloc),
        },
    })
}

/// Whether a manifest is that of a Route of this name and namespace: told by the bytes of the two.
pub fn is_route(
    alloc: Global,
    manifest: &Manifest,
    name: &str,
    namespace: &str,
) -> Result<bool, AllocError>
    requires named { name.now ≢ [] }
    requires regular { IsRegular manifest.now }
    requires well { IsWell manifest.now }
    ensures { IfOk result (λ is. IsTrue is ↔ (manifest.now ≡ route_named name.now namespace.now)) }
{
    let other = route(alloc, name, namespace)?;
    have_same_bytes(alloc, manifest, &other)
}
