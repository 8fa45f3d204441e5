//! Replacing an object.
ghost use Rattle.std.specs.Prelude.{◌≡◌, ◌<◌, ◌-◌, ◌^◌, length, IsTrue, IfOk};
ghost use Rattle.answers.specs.Answers.{Comes};
ghost use Rattle.serve_names.specs.Labels.{is_label_of};
ghost use Rattle.resource_types.specs.Manifests.{object_kind};
ghost use Rattle.manifest_intake.specs.Bodies.{IsReadable};
ghost use Rattle.api_outcomes.specs.Outcomes.{TakesWrite, IsFit};
ghost use Rattle.api_puts.specs.Puts.{StandsAs, AsksFor};
ghost use Rattle.api_calls.specs.Calls as spec;

use crate::agreement::{changed_well, is_version_of, require_fresh};
use crate::lookups::there;
use crate::manifests::manifest_in;
use answers::{Stop, require};
use api_outcomes::{Outcome, Refusal};
use api_puts::{Place, replace};
use json_tree::Json;
use manifest_intake::Purpose;
use resource_types::{Manifest, Object};
use std::alloc::Global;
use version_store::Store;

/// Puts a manifest over the object that stands, where the version agrees and no template changes under its name.
#[tactic(auto, unfolding(crate::specs::Calls::agreeing))]
pub(crate) fn agreeing(
    alloc: Global,
    store: &Store<Object>,
    moment: u64,
    place: Place<'_>,
    old: &Object,
    is_fresh: bool,
    manifest: Manifest,
) -> Result<Outcome, Stop<Refusal>>
    requires room { length store.now.entries < 2 ^ 64 - 1 }
    requires old { StandsAs store.now.entries (object_kind place.kind) place.space.now place.name.now old.now }
    requires asks { AsksFor place.kind place.space.now place.name.now manifest }
    ensures answer { Comes result (spec.agreeing store.now.entries moment place.entry.kind place.entry.space.now place.entry.name.now
        old.now is_fresh manifest) }
    ensures fits { IfOk result (IsFit store.now.entries) }
{
    require_fresh(alloc, is_fresh, place.kind.kind(), old)?;
    changed_well(old, &manifest)?;
    Ok(replace(alloc, store, moment, place, old, manifest)?)
}

/// Puts a manifest in place of the object that stands.
#[tactic(auto, unfolding(crate::specs::Calls::replacing_with))]
fn replace_standing(
    alloc: Global,
    store: &Store<Object>,
    moment: u64,
    place: Place<'_>,
    manifest: Manifest,
) -> Result<Outcome, Stop<Refusal>>
    requires journal { TakesWrite store.now.entries }
    requires asks { AsksFor place.kind place.space.now place.name.now manifest }
    ensures answer { Comes result (spec.replacing_with store.now.entries moment place.entry.kind place.entry.space.now place.entry.name.now
        manifest) }
    ensures fits { IfOk result (IsFit store.now.entries) }
{
    let of_kind = place.kind.kind();
    let old = there(alloc, store, of_kind, place.space, place.name)?;
    let is_fresh = is_version_of(alloc, old, &manifest.version)?;
    agreeing(alloc, store, moment, place, old, is_fresh, manifest)
}

fn gives_version(manifest: &Manifest) -> bool
    ensures { result ≡ spec.gives_version manifest.now }
{
    !manifest.version.is_empty()
}

/// Puts the object that the value of a body asks for in place of the one that stands.
///
/// It is refused for the first of these that holds: a reason to refuse the manifest, `VersionMissing`, `NotFound`, `Conflict`, and
/// `KeptName`.
#[tactic(auto, unfolding(crate::specs::Calls::replacing))]
pub fn replacing(
    alloc: Global,
    store: &Store<Object>,
    moment: u64,
    place: Place<'_>,
    json: &Json,
) -> Result<Outcome, Stop<Refusal>>
    requires journal { TakesWrite store.now.entries }
    requires label { IsTrue (is_label_of place.space.now 63) }
    requires body { IsReadable json.now }
    ensures answer { Comes result (spec.replacing store.now.entries moment place.entry.kind place.entry.space.now place.entry.name.now json.now) }
    ensures fits { IfOk result (IsFit store.now.entries) }
{
    let purpose = Purpose::Replace {
        space: place.space,
        name: place.name,
    };
    let manifest = manifest_in(alloc, purpose, place.kind, json)?;
    require(gives_version(&manifest), Refusal::VersionMissing)?;
    replace_standing(alloc, store, moment, place, manifest)
}
