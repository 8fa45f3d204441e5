//! Writing manifests.
ghost use Rattle.std.specs.Prelude.{◌≡◌, ℕ, ◌↔◌, ◌≤◌, IsTrue, IfOk, Ok};
ghost use Rattle.serde_json.specs.Written.{compact_text};
ghost use Rattle.json_tree.specs.Tree.{is_well_formed, depth_of, data_of};
ghost use Rattle.resource_codec.specs.Written.{metadata_members, manifest_metadata, spec_members, written, kind_of, IsRegular, IsWell};
ghost use Rattle.resource_codec.specs.Shape.{shape};
ghost use Rattle.resource_codec.specs.Sound.{Fits, RestOfSpecFits};

use crate::adding::{add_text, add_texts};
use crate::writing::{configuration_spec, document, route_spec, service_spec};
use json_tree::{Json, Members, have_same_text};
use resource_types::{Manifest, ManifestSpec};
use std::alloc::{AllocError, Global};

/// A manifest as JSON: its written form, in which what is empty is left out.
///
/// A regular manifest is read again from it. It has an API version, a kind that is the one of its spec, and a name; its
/// targets have no address; and the rest of its pod spec has no null and none of the two numbers that stand apart.
pub fn encode_manifest(alloc: Global, manifest: &Manifest) -> Result<Json, AllocError>
    ensures written { IfOk result (λ j. j ≡ written manifest.now) }
    // What is written of a regular manifest is read as that manifest.
    ensures again { IsRegular manifest.now
        → IfOk result (λ j. shape (kind_of manifest.now.spec) j ≡ Ok manifest.now) }
    ensures well { IsWell manifest.now
        → IfOk result (λ j. IsTrue (is_well_formed j) × (depth_of j ≤ 35)) }
    // It is three levels deeper than the rest of a pod spec, and at most 5 deep without one.
    ensures deep { (n : ℕ) → 5 ≤ n → IsWell manifest.now → RestOfSpecFits 3 n manifest.now.spec
        → IfOk result (λ j. depth_of j ≤ n) }
{
    let metadata = manifest_metadata(alloc, manifest)?;
    let spec = spec_members(alloc, &manifest.spec)?;
    let (api, kind) = (manifest.api.as_str(), manifest.kind.as_str());
    document(alloc, api, kind, metadata, spec, None)
}

fn manifest_metadata(alloc: Global, manifest: &Manifest) -> Result<Members, AllocError>
    ensures { IfOk result (λ m. m.entries ≡ metadata_members (manifest_metadata manifest.now)) }
{
    let mut members = Members::new(alloc);
    add_texts(alloc, &mut members, "annotations", &manifest.annotations)?;
    add_texts(alloc, &mut members, "labels", &manifest.labels)?;
    add_text(alloc, &mut members, "name", &manifest.name)?;
    add_text(alloc, &mut members, "namespace", &manifest.namespace)?;
    add_text(alloc, &mut members, "resourceVersion", &manifest.version)?;
    Ok(members)
}

fn spec_members(alloc: Global, spec: &ManifestSpec) -> Result<Members, AllocError>
    ensures { IfOk result (λ m. m.entries ≡ spec_members spec.now) }
{
    match spec {
        ManifestSpec::Service { template, traffic } => service_spec(alloc, template, traffic),
        ManifestSpec::Configuration { template } => configuration_spec(alloc, template),
        ManifestSpec::Route { traffic } => route_spec(alloc, traffic),
    }
}

/// The law that texts tell manifests apart: two regular manifests have the same written bytes exactly where they are
/// equal. Their written forms are well formed, and at most 64 deep, as a value has to be that is written.
pub fn have_same_bytes(alloc: Global, one: &Manifest, two: &Manifest) -> Result<bool, AllocError>
    requires one_regular { IsRegular one.now }
    requires two_regular { IsRegular two.now }
    requires one_fits { Fits 64 (written one.now) }
    requires two_fits { Fits 64 (written two.now) }
    ensures bytes { IfOk result (λ same. IsTrue same
        ↔ (compact_text (data_of (written one.now)) ≡ compact_text (data_of (written two.now)))) }
    ensures value { IfOk result (λ same. IsTrue same ↔ (one.now ≡ two.now)) }
{
    let one_json = encode_manifest(alloc, one)?;
    let two_json = encode_manifest(alloc, two)?;
    have_same_text(alloc, &one_json, &two_json)
}
