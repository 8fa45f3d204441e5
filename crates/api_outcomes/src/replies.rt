//! Replies, with the compact texts of JSON values.
ghost use Rattle.std.specs.Prelude.{◌≡◌, ◌≢◌, ◌≤◌, IsTrue, IfOk};
ghost use Rattle.serde_json.specs.Data.{Data};
ghost use Rattle.serde_json.specs.Written.{compact_text};
ghost use Rattle.json_tree.specs.Tree.{data_of, is_well_formed, depth_of};
ghost use Rattle.http_session.specs.Reply.{IsReply, IsReplyCode};
ghost use Rattle.api_status.specs.Status.{failure};
ghost use Rattle.resource_codec.specs.Views.{IsShown};
ghost use Rattle.api_outcomes.specs.Replies as spec;
ghost use Rattle.api_paths.specs.Faults.{NamesMethods};

use crate::refusal::Refusal;
use api_paths::PathError;
use api_status::{failure, success};
use http_session::{Allow, Reply};
use json_tree::{Json, Seq, write_json};
use object_writer::write_object;
use resource_types::Object;
use std::alloc::{AllocError, Global};

/// A reply whose body is the compact text of a value.
fn reply_with(alloc: Global, code: u16, allow: Allow, body: &Json) -> Result<Reply, AllocError>
    requires well { IsTrue (is_well_formed body.now) }
    requires depth { depth_of body.now ≤ 64 }
    ensures { IfOk result (λ r. r ≡ spec.reply_with code allow (data_of body.now)) }
{
    Ok(Reply {
        code,
        allow,
        body: Seq::from_vec(write_json(alloc, body)?),
    })
}

/// A reply of any code but 405, with the compact text of a value as its body.
pub fn reply_of(alloc: Global, code: u16, body: &Json) -> Result<Reply, AllocError>
    requires well { IsTrue (is_well_formed body.now) }
    requires depth { depth_of body.now ≤ 64 }
    requires code { IsReplyCode code }
    requires other { code ≢ 405 }
    ensures value { IfOk result (λ r. r ≡ spec.reply_of code (data_of body.now)) }
    ensures reply { IfOk result IsReply }
{
    reply_with(alloc, code, Allow::None, body)
}

/// A reply of any code but 405, with a text that was written already.
pub fn reply_in_bytes(code: u16, body: Vec<u8>) -> Reply
    requires code { IsReplyCode code }
    requires other { code ≢ 405 }
    ensures value { (d : Data) → body.items ≡ compact_text d → result ≡ spec.reply_of code d }
    ensures reply { IsReply result }
{
    Reply {
        code,
        allow: Allow::None,
        body: Seq::from_vec(body),
    }
}

/// A reply that shows an object.
pub fn shown(alloc: Global, code: u16, object: &Object) -> Result<Reply, AllocError>
    requires shown { IsShown object.now }
    requires code { IsReplyCode code }
    requires other { code ≢ 405 }
    ensures value { IfOk result (λ r. r ≡ spec.shown code object.now) }
    ensures reply { IfOk result IsReply }
{
    let body = write_object(alloc, object)?;
    Ok(reply_in_bytes(code, body))
}

/// The reply to a removal.
pub fn removed(alloc: Global) -> Result<Reply, AllocError>
    ensures value { IfOk result (λ r. r ≡ spec.removed) }
    ensures reply { IfOk result IsReply }
{
    reply_of(alloc, 200, &success(alloc)?)
}

/// A reply of failure that names no methods.
pub fn failed(alloc: Global, code: u16, reason: &str, message: &str) -> Result<Reply, AllocError>
    requires code { IsReplyCode code }
    requires other { code ≢ 405 }
    ensures value { IfOk result (λ r. r ≡ spec.reply_of code (failure code reason.now message.now)) }
    ensures reply { IfOk result IsReply }
{
    let body = failure(alloc, code, reason, message)?;
    reply_of(alloc, code, &body)
}

/// The reply to a call that is refused.
pub fn refused(alloc: Global, refusal: &Refusal) -> Result<Reply, AllocError>
    ensures value { IfOk result (λ r. r ≡ spec.refused refusal.now) }
    ensures reply { IfOk result IsReply }
{
    let message = refusal.message(alloc)?;
    failed(alloc, refusal.code(), refusal.reason(), message.as_str())
}

/// The reply to a method that what the path names hasn't.
fn no_such_method(alloc: Global, methods: Allow) -> Result<Reply, AllocError>
    requires { methods ≢ Allow.None }
    ensures value { IfOk result (λ r. r ≡ spec.path_refused (PathError.NoSuchMethod methods)) }
    ensures reply { IfOk result IsReply }
{
    let message = "no such method on this path";
    let body = failure(alloc, 405, "MethodNotAllowed", message)?;
    reply_with(alloc, 405, methods, &body)
}

/// The reply to a method and a target that make no call.
pub fn path_refused(alloc: Global, fault: PathError) -> Result<Reply, AllocError>
    requires { NamesMethods fault }
    ensures value { IfOk result (λ r. r ≡ spec.path_refused fault) }
    ensures reply { IfOk result IsReply }
{
    match fault {
        PathError::NoSuchPath => refused(alloc, &Refusal::NoSuchPath),
        PathError::NoSuchMethod { allow } => no_such_method(alloc, allow),
        PathError::BadQuery => failed(alloc, 400, "BadRequest", "bad query"),
    }
}
