//! The lines that are written.
ghost use Rattle.std.specs.Prelude.{◌≡◌, ◌≤◌, IsTrue, IfOk};
ghost use Rattle.json_tree.specs.Tree.{data_of, is_well_formed, depth_of};
ghost use Rattle.resource_codec.specs.Written.{IsWell};
ghost use Rattle.manifest_check.specs.Lines as spec;

use api_status::failure;
use json_tree::{Json, write_json};
use manifest_intake::ManifestRefusal;
use resource_codec::encode_manifest;
use resource_types::Manifest;
use std::alloc::{AllocError, Global};

/// A value as one line.
fn json_line(alloc: Global, json: &Json) -> Result<Vec<u8>, AllocError>
    requires well { IsTrue (is_well_formed json.now) }
    requires depth { depth_of json.now ≤ 64 }
    ensures { IfOk result (λ line. line.items ≡ spec.data_line (data_of json.now)) }
{
    let mut line = write_json(alloc, json)?;
    line.push(b'\n')?;
    Ok(line)
}

/// The line that shows a manifest.
#[tactic(auto, unfolding(crate::specs::Lines::manifest_line))]
pub(crate) fn manifest_line(alloc: Global, manifest: &Manifest) -> Result<Vec<u8>, AllocError>
    requires { IsWell manifest.now }
    ensures { IfOk result (λ line. line.items ≡ spec.manifest_line manifest.now) }
{
    let json = encode_manifest(alloc, manifest)?;
    json_line(alloc, &json)
}

/// The line that refuses a manifest.
#[tactic(auto, unfolding(crate::specs::Lines::refusal_line))]
pub(crate) fn refusal_line(alloc: Global, refusal: ManifestRefusal) -> Result<Vec<u8>, AllocError>
    ensures { IfOk result (λ line. line.items ≡ spec.refusal_line refusal) }
{
    let message = refusal.message(alloc)?;
    let status = failure(alloc, refusal.code(), refusal.reason(), message.as_str())?;
    json_line(alloc, &status)
}

/// The line that refuses an input of more bytes than a body may have, in the words in which such a request is refused.
pub(crate) fn long_line() -> &'static [u8]
    ensures { result.now ≡ spec.long_line }
{
    b"{\"apiVersion\":\"v1\",\"code\":413,\"kind\":\"Status\",\"message\":\"the body is too large\",\"reason\":\"RequestEntityTooLarge\",\"status\":\"Failure\"}\n"
}
