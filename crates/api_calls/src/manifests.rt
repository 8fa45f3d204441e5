//! The manifest that a body gives.
ghost use Rattle.std.specs.Prelude.{IfOk};
ghost use Rattle.answers.specs.Answers.{Comes};
ghost use Rattle.manifest_intake.specs.Bodies.{IsReadable};
ghost use Rattle.manifest_intake.specs.Good.{IsAcceptedFor};
ghost use Rattle.manifest_intake.specs.Seen.{purpose_seen};
ghost use Rattle.api_calls.specs.Agreement as spec;

use answers::Stop;
use api_outcomes::Refusal;
use json_tree::Json;
use manifest_intake::{Purpose, accept};
use resource_types::{ClientKind, Manifest};
use std::alloc::Global;

/// The manifest with its defaults that the value of a body gives, or the first reason to refuse it.
pub(crate) fn manifest_in(
    alloc: Global,
    purpose: Purpose<'_>,
    kind: ClientKind,
    json: &Json,
) -> Result<Manifest, Stop<Refusal>>
    requires { IsReadable json.now }
    ensures value { Comes result (spec.manifest_in (purpose_seen purpose.entry) kind json.now) }
    ensures accepted { IfOk result (IsAcceptedFor (purpose_seen purpose.entry) kind) }
{
    match accept(alloc, purpose, kind, json) {
        Ok(manifest) => Ok(manifest),
        Err(Stop::Refused(refusal)) => Err(Stop::Refused(Refusal::Manifest(refusal))),
        Err(Stop::Memory) => Err(Stop::Memory),
    }
}
