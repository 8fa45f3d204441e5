//! What a replacement must agree with.
ghost use Rattle.std.specs.Prelude.{◌≡◌, ◌≢◌, IfOk, IfErr};
ghost use Rattle.answers.specs.Answers.{Comes, requires_that};
ghost use Rattle.validation.specs.Change.{change_fault};
ghost use Rattle.api_calls.specs.Agreement as spec;

use answers::Stop;
use api_outcomes::Refusal;
use json_tree::Text;
use resource_types::{Kind, Manifest, Object, decimal_text};
use std::alloc::{AllocError, Global};
use validation::check_change;

/// Whether a version that is given is that of the object.
pub(crate) fn is_version_of(
    alloc: Global,
    object: &Object,
    given: &Text,
) -> Result<bool, AllocError>
    ensures { IfOk result (λ is. is ≡ spec.is_version_of object.now given.now) }
{
    let version = decimal_text(alloc, object.meta.stamp.version)?;
    Ok(*given == version)
}

/// Nothing where the version that stands is the one that was seen, and else that another stands.
pub(crate) fn require_fresh(
    alloc: Global,
    is_fresh: bool,
    kind: Kind,
    object: &Object,
) -> Result<(), Stop<Refusal>>
    ensures { Comes result (requires_that is_fresh (spec.conflict kind object.now)) }
{
    if is_fresh {
        return Ok(());
    }
    Err(Stop::Refused(Refusal::Conflict {
        kind,
        name: object.key.name.name.copy(alloc)?,
        version: object.meta.stamp.version,
    }))
}

/// Nothing where a manifest changes no template under a kept name, and else that it does.
pub(crate) fn changed_well(old: &Object, manifest: &Manifest) -> Result<(), Stop<Refusal>>
    ensures answer { Comes result (spec.changed_well (change_fault old.now manifest.now)) }
    ensures sure { IfErr result (λ e. e ≢ Stop.Memory) }
{
    match check_change(old, manifest) {
        Ok(()) => Ok(()),
        Err(_) => Err(Stop::Refused(Refusal::KeptName)),
    }
}
