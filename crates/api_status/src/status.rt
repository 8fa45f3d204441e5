//! The two forms of a Status, whose names stand in order of their bytes.
ghost use Rattle.std.specs.Prelude.{◌≡◌, ◌≤◌, IsTrue, IfOk};
ghost use Rattle.json_tree.specs.Tree.{data_of, is_well_formed, depth_of};
ghost use Rattle.api_status.specs.Status as spec;

use json_tree::{Json, Members};
use std::alloc::{AllocError, Global};

/// A Status of failure, with a code, a reason in one word and a message for a reader.
pub fn failure(alloc: Global, code: u16, reason: &str, message: &str) -> Result<Json, AllocError>
    ensures value { IfOk result (λ j. data_of j ≡ spec.failure code reason.now message.now) }
    ensures well { IfOk result (λ j. IsTrue (is_well_formed j)) }
    ensures depth { IfOk result (λ j. depth_of j ≤ 1) }
{
    let mut members = Members::new(alloc);
    members.put_named("apiVersion", Json::text(alloc, "v1")?)?;
    members.put_named("code", Json::Nat(code as u64))?;
    members.put_named("kind", Json::text(alloc, "Status")?)?;
    members.put_named("message", Json::text(alloc, message)?)?;
    members.put_named("reason", Json::text(alloc, reason)?)?;
    members.put_named("status", Json::text(alloc, "Failure")?)?;
    Ok(Json::Obj(members))
}

/// The Status of success.
pub fn success(alloc: Global) -> Result<Json, AllocError>
    ensures value { IfOk result (λ j. data_of j ≡ spec.success) }
    ensures well { IfOk result (λ j. IsTrue (is_well_formed j)) }
    ensures depth { IfOk result (λ j. depth_of j ≤ 1) }
{
    let mut members = Members::new(alloc);
    members.put_named("apiVersion", Json::text(alloc, "v1")?)?;
    members.put_named("kind", Json::text(alloc, "Status")?)?;
    members.put_named("status", Json::text(alloc, "Success")?)?;
    Ok(Json::Obj(members))
}
