//! Patching an object (RFC 7396).
ghost use Rattle.std.specs.Prelude.{◌≡◌, ◌<◌, ◌-◌, ◌^◌, length, IsTrue, IfOk};
ghost use Rattle.answers.specs.Answers.{Comes};
ghost use Rattle.serve_names.specs.Labels.{is_label_of};
ghost use Rattle.resource_types.specs.Manifests.{object_kind};
ghost use Rattle.manifest_intake.specs.Bodies.{IsReadable};
ghost use Rattle.api_outcomes.specs.Outcomes.{TakesWrite, IsFit};
ghost use Rattle.api_puts.specs.Puts.{StandsAs};
ghost use Rattle.api_calls.specs.Agreement.{IsPatchable};
ghost use Rattle.api_calls.specs.Calls as spec;
ghost use Rattle.api_calls.specs.Versioned.{IsPutOf};

use crate::agreement::is_version_of;
use crate::lookups::there;
use crate::manifests::manifest_in;
use crate::replace::agreeing;
use answers::Stop;
use api_outcomes::{Outcome, Refusal};
use api_puts::Place;
use json_tree::{Json, Text};
use manifest_intake::Purpose;
use merge_patch::merge;
use resource_codec::encode_manifest;
use resource_types::{Object, manifest_of};
use std::alloc::{AllocError, Global};
use version_store::Store;

/// The document of an object, which a patch changes: its manifest without a version.
fn document_of(alloc: Global, old: &Object) -> Result<Json, AllocError>
    requires { IsPatchable old.now }
    ensures value { IfOk result (λ j. j ≡ spec.document_of old.now) }
    ensures readable { IfOk result IsReadable }
{
    let mut manifest = manifest_of(alloc, old)?;
    manifest.version = Text::new(alloc, "")?;
    encode_manifest(alloc, &manifest)
}

/// The document of an object, changed as a patch says.
fn patched(alloc: Global, old: &Object, patch: &Json) -> Result<Json, AllocError>
    requires old { IsPatchable old.now }
    requires patch { IsReadable patch.now }
    ensures value { IfOk result (λ j. j ≡ spec.patched_document old.now patch.now) }
    ensures readable { IfOk result IsReadable }
{
    let document = document_of(alloc, old)?;
    merge(alloc, document, patch)
}

/// Whether a version, where it is given, is that of the object.
fn is_absent_or_fresh(alloc: Global, old: &Object, given: &Text) -> Result<bool, AllocError>
    ensures { IfOk result (λ is. is ≡ spec.is_absent_or_fresh old.now given.now) }
{
    Ok(given.is_empty() || is_version_of(alloc, old, given)?)
}

/// Puts the object that a patched document asks for in place of the one that stands.
#[tactic(auto, unfolding(crate::specs::Calls::patching_over))]
fn patch_over(
    alloc: Global,
    store: &Store<Object>,
    moment: u64,
    place: Place<'_>,
    old: &Object,
    patched: &Json,
) -> Result<Outcome, Stop<Refusal>>
    requires room { length store.now.entries < 2 ^ 64 - 1 }
    requires label { IsTrue (is_label_of place.space.now 63) }
    requires old { StandsAs store.now.entries (object_kind place.kind) place.space.now place.name.now old.now }
    requires patched { IsReadable patched.now }
    ensures answer { Comes result (spec.patching_over store.now.entries moment place.entry.kind place.entry.space.now place.entry.name.now old.now patched.now) }
    ensures fits { IfOk result (IsFit store.now.entries) }
{
    let purpose = Purpose::Replace {
        space: place.space,
        name: place.name,
    };
    let manifest = manifest_in(alloc, purpose, place.kind, patched)?;
    let is_fresh = is_absent_or_fresh(alloc, old, &manifest.version)?;
    agreeing(alloc, store, moment, place, old, is_fresh, manifest)
}

/// Changes the object that stands as the value of a body says.
///
/// It is refused for the first of these that holds: `NotFound`, a reason to refuse the manifest of the patched document, `Conflict`,
/// where that gives a version, and `KeptName`.
#[tactic(auto, unfolding(crate::specs::Calls::patching))]
pub fn patching(
    alloc: Global,
    store: &Store<Object>,
    moment: u64,
    place: Place<'_>,
    patch: &Json,
) -> Result<Outcome, Stop<Refusal>>
    requires journal { TakesWrite store.now.entries }
    requires label { IsTrue (is_label_of place.space.now 63) }
    requires body { IsReadable patch.now }
    ensures answer { Comes result (spec.patching store.now.entries moment place.entry.kind place.entry.space.now place.entry.name.now patch.now) }
    ensures as_put { IfOk result (IsPutOf store.now.entries moment place.entry.kind place.entry.space.now place.entry.name.now patch.now) }
    ensures fits { IfOk result (IsFit store.now.entries) }
{
    let of_kind = place.kind.kind();
    let old = there(alloc, store, of_kind, place.space, place.name)?;
    let document = patched(alloc, old, patch)?;
    patch_over(alloc, store, moment, place, old, &document)
}
