//! The answer to a request.
ghost use Rattle.std.specs.Prelude.{◌≡◌, ◌≤◌, IfOk, OnErr};
ghost use Rattle.std.specs.Option.{ForSome};
ghost use Rattle.http_session.specs.Reply.{IsReply};
ghost use Rattle.manifest_intake.specs.Bodies.{IsReadable};
ghost use Rattle.manifest_intake.specs.Good.{is_good};
ghost use Rattle.control_rules.specs.Events.{Leads};
ghost use Rattle.api_paths.specs.Paths.{HasLabel};
ghost use Rattle.api_paths.specs.Seen.{call_seen};
ghost use Rattle.api_outcomes.specs.Outcomes.{TakesWrite, CanBeMade, IsFit};
ghost use Rattle.api_server.specs.Calls as calls;
ghost use Rattle.api_server.specs.Ask as spec;

use answers::Stop;
use api_calls::{creating, listing, patching, polling, reading, removing, replacing};
use api_outcomes::{Outcome, Refusal, path_refused, refused, reply_to_call};
use api_paths::{Call, route_of};
use api_puts::Place;
use control_calls::{ControlCall, hear, settling, summing};
use http_session::{Reply, Request};
use json_tree::Json;
use manifest_intake::{ManifestRefusal, read_body};
use resource_types::Object;
use std::alloc::{AllocError, Global};
use step_scheduler::Plane;
use version_store::{Plan, Store};

/// The value of a body, or that it is unreadable.
fn json_in(alloc: Global, bytes: &[u8]) -> Result<Json, Stop<Refusal>>
    ensures body { calls.ReadsBody bytes.now result }
    ensures readable { IfOk result IsReadable }
{
    match read_body(alloc, bytes)? {
        Some(json) => Ok(json),
        None => Err(Stop::Refused(Refusal::Manifest(ManifestRefusal::UnreadableBody))),
    }
}

/// What a client's call comes to. A control call is none of these.
fn make_call(
    alloc: Global,
    store: &Store<Object>,
    moment: u64,
    call: Call<'_>,
    bytes: &[u8],
) -> Result<Outcome, Stop<Refusal>>
    requires journal { TakesWrite store.now.entries }
    requires label { HasLabel (call_seen call) }
    ensures answer { calls.ComesOfCall store.now.entries moment bytes.now (call_seen call.entry) result }
    ensures fits { IfOk result (IsFit store.now.entries) }
{
    match call {
        Call::List { kind, space } => listing(alloc, store, kind, space),
        Call::Poll { kind, space, after } => polling(alloc, store, kind, space, after),
        Call::Read { kind, space, name } => reading(alloc, store, kind, space, name),
        Call::Create { kind, space } => {
            let json = json_in(alloc, bytes)?;
            creating(alloc, store, moment, kind, space, &json)
        }
        Call::Replace { kind, space, name } => {
            let json = json_in(alloc, bytes)?;
            replacing(alloc, store, moment, Place { kind, space, name }, &json)
        }
        Call::Patch { kind, space, name } => {
            let json = json_in(alloc, bytes)?;
            patching(alloc, store, moment, Place { kind, space, name }, &json)
        }
        Call::Remove { kind, space, name } => removing(alloc, store, kind, space, name),
        Call::Report | Call::SetClock | Call::Step | Call::Settle | Call::Summary => {
            Err(Stop::Refused(Refusal::NoSuchPath))
        }
    }
}

/// The outcome of a client's call: its reply, and the write that it makes, if any.
fn outcome_of(
    alloc: Global,
    store: &Store<Object>,
    moment: u64,
    call: Call<'_>,
    bytes: &[u8],
) -> Result<Outcome, AllocError>
    requires journal { TakesWrite store.now.entries }
    requires label { HasLabel (call_seen call) }
    ensures answers { IfOk result (calls.AnswersDue bytes.now (calls.call_due store.now.entries moment (call_seen call.entry))) }
    ensures fits { IfOk result (IsFit store.now.entries) }
{
    reply_to_call(alloc, make_call(alloc, store, moment, call, bytes))
}

/// Makes a client's write, if there is one.
#[tactic(auto, unfolding(crate::specs::Calls::plane_after))]
fn write(plane: &mut Plane, plan: Option<Plan<Object>>)
    requires spare { 1 ≤ plane.old.spare }
    requires room { TakesWrite plane.old.plane.journal }
    requires plan { ForSome plan (CanBeMade plane.old.plane.journal) }
    ensures plane { plane.new.plane ≡ calls.plane_after plane.old.plane plan }
    ensures leads { Leads is_good plane.old.plane plane.new.plane }
{
    if let Some(plan) = plan {
        let _applied = plane.client_write(plan);
    }
}

/// Answers a client's call. The entry and the reply are prepared before the write.
fn answer_client(
    alloc: Global,
    plane: &mut Plane,
    call: Call<'_>,
    bytes: &[u8],
) -> Result<Reply, AllocError>
    requires label { HasLabel (call_seen call) }
    ensures ok { IfOk result (λ reply. calls.AnswersClient plane.old.plane bytes.now
        (calls.call_due plane.old.plane.journal plane.old.plane.now (call_seen call.entry)) reply plane.new.plane) }
    ensures reply { IfOk result IsReply }
    ensures leads { Leads is_good plane.old.plane plane.new.plane }
    ensures err { OnErr result (plane.new.plane ≡ plane.old.plane) }
{
    plane.prepare()?;
    let outcome = outcome_of(alloc, plane.store(), plane.now(), call, bytes)?;
    write(plane, outcome.plan);
    Ok(outcome.reply)
}

/// Answers a control call with a body.
fn answer_control(
    alloc: Global,
    plane: &mut Plane,
    call: ControlCall,
    bytes: &[u8],
) -> Result<Reply, AllocError>
    ensures ok { IfOk result (λ reply. calls.AnswersControl call plane.old.plane bytes.now reply plane.new.plane) }
    ensures reply { IfOk result IsReply }
    ensures leads { Leads is_good plane.old.plane plane.new.plane }
    ensures err { OnErr result (plane.new.plane ≡ plane.old.plane) }
{
    match read_body(alloc, bytes)? {
        Some(json) => hear(alloc, plane, call, &json),
        None => refused(alloc, &Refusal::Manifest(ManifestRefusal::UnreadableBody)),
    }
}

/// Answers a call.
fn answer_call(
    alloc: Global,
    plane: &mut Plane,
    call: Call<'_>,
    bytes: &[u8],
) -> Result<Reply, AllocError>
    requires label { HasLabel (call_seen call) }
    ensures ok { IfOk result (λ reply. calls.AnswersCall plane.old.plane bytes.now (call_seen call.entry) reply plane.new.plane) }
    ensures reply { IfOk result IsReply }
    ensures leads { Leads is_good plane.old.plane plane.new.plane }
    ensures err { OnErr result (calls.IsCutShort plane.old.plane (call_seen call.entry) plane.new.plane) }
{
    match call {
        Call::Report => answer_control(alloc, plane, ControlCall::Report, bytes),
        Call::SetClock => answer_control(alloc, plane, ControlCall::SetClock, bytes),
        Call::Step => answer_control(alloc, plane, ControlCall::Step, bytes),
        Call::Settle => settling(alloc, plane),
        Call::Summary => summing(alloc, plane),
        _ => answer_client(alloc, plane, call, bytes),
    }
}

/// The reply to a request over a plane, which is then as the request leaves it.
#[tactic(auto, unfolding(crate::specs::Ask::Answers))]
pub(crate) fn answer(
    alloc: Global,
    plane: &mut Plane,
    request: &Request,
) -> Result<Reply, AllocError>
    ensures ok { IfOk result (λ reply. spec.Answers plane.old.plane request.now reply plane.new.plane) }
    ensures reply { IfOk result IsReply }
    ensures leads { Leads is_good plane.old.plane plane.new.plane }
    ensures err { OnErr result (spec.IsCutShort plane.old.plane request.now plane.new.plane) }
{
    match route_of(request.method.as_str(), request.target.as_str()) {
        Ok(call) => answer_call(alloc, plane, call, request.body.as_slice()),
        Err(fault) => path_refused(alloc, fault),
    }
}
