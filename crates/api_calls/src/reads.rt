//! Lists, polls, and single objects.
ghost use Rattle.std.specs.Prelude.{◌≡◌, ◌≤◌, length, IfOk};
ghost use Rattle.std.specs.Option.{option_copied};
ghost use Rattle.answers.specs.Answers.{Comes};
ghost use Rattle.api_calls.specs.Calls as spec;
ghost use Rattle.json_tree.specs.Tree.{data_of};
ghost use Rattle.http_session.specs.Reply.{IsReply};
ghost use Rattle.resource_codec.specs.Storable.{AreStorable};
ghost use Rattle.resource_codec.specs.Views.{list_of, poll_of};
ghost use Rattle.api_outcomes.specs.Outcomes.{IsFit};
ghost use Rattle.api_outcomes.specs.Replies.{reply_of};

use crate::lookups::there;
use answers::{Stop, require};
use api_outcomes::{Outcome, Refusal, reply_in_bytes, shown};
use http_session::Reply;
use json_tree::Text;
use object_writer::{write_list, write_poll};
use resource_types::{Kind, Object};
use std::alloc::{AllocError, Global};
use version_store::Store;

/// Whether the kind has paths of its own.
fn is_served(kind: Kind) -> bool
    ensures { result ≡ spec.is_served kind }
{
    match kind {
        Kind::Health => false,
        _ => true,
    }
}

/// The namespace that is asked for. The empty one stands for all.
fn space_asked(alloc: Global, space: &str) -> Result<Option<Text>, AllocError>
    ensures { IfOk result (λ asked. asked ≡ spec.space_asked space.now) }
{
    if space.is_empty() {
        return Ok(None);
    }
    Ok(Some(Text::new(alloc, space)?))
}

/// The reply with a list.
fn listed(
    alloc: Global,
    store: &Store<Object>,
    kind: Kind,
    space: Option<&Text>,
) -> Result<Reply, AllocError>
    ensures value { IfOk result
        (λ r. r ≡ reply_of 200 (data_of (list_of store.now.entries kind (option_copied space.entry)))) }
    ensures reply { IfOk result IsReply }
{
    let text = write_list(alloc, store, kind, space)?;
    Ok(reply_in_bytes(200, text))
}

/// The reply with a poll.
fn polled(
    alloc: Global,
    store: &Store<Object>,
    kind: Kind,
    space: Option<&Text>,
    after: u64,
) -> Result<Reply, AllocError>
    requires { after ≤ length store.now.entries }
    ensures value { IfOk result
        (λ r. r ≡ reply_of 200 (data_of (poll_of store.now.entries kind (option_copied space.entry) after))) }
    ensures reply { IfOk result IsReply }
{
    let text = write_poll(alloc, store, kind, space, after)?;
    Ok(reply_in_bytes(200, text))
}

/// The list of a kind in a namespace, or in all where it is empty. `NoSuchPath` refuses a kind without paths of its own, here and below.
#[tactic(auto, unfolding(crate::specs::Calls::listing))]
pub fn listing(
    alloc: Global,
    store: &Store<Object>,
    kind: Kind,
    space: &str,
) -> Result<Outcome, Stop<Refusal>>
    requires { AreStorable store.now.entries }
    ensures answer { Comes result (spec.listing store.now.entries kind space.now) }
    ensures fits { IfOk result (IsFit store.now.entries) }
{
    require(is_served(kind), Refusal::NoSuchPath)?;
    let space = space_asked(alloc, space)?;
    let list = listed(alloc, store, kind, space.as_ref())?;
    Ok(Outcome::only(list))
}

/// What changed among the objects of a kind in a namespace, or in all where it is empty, after a version. `BeyondNewest` refuses a version that the journal
/// hasn't reached.
#[tactic(auto, unfolding(crate::specs::Calls::polling))]
pub fn polling(
    alloc: Global,
    store: &Store<Object>,
    kind: Kind,
    space: &str,
    after: u64,
) -> Result<Outcome, Stop<Refusal>>
    requires { AreStorable store.now.entries }
    ensures answer { Comes result (spec.polling store.now.entries kind space.now after) }
    ensures fits { IfOk result (IsFit store.now.entries) }
{
    require(is_served(kind), Refusal::NoSuchPath)?;
    let newest = store.version();
    require(after <= newest, Refusal::BeyondNewest { after, newest })?;
    let space = space_asked(alloc, space)?;
    let poll = polled(alloc, store, kind, space.as_ref(), after)?;
    Ok(Outcome::only(poll))
}

/// One object. `NotFound` refuses it where there is none.
#[tactic(auto, unfolding(crate::specs::Calls::reading))]
pub fn reading(
    alloc: Global,
    store: &Store<Object>,
    kind: Kind,
    space: &str,
    name: &str,
) -> Result<Outcome, Stop<Refusal>>
    requires { AreStorable store.now.entries }
    ensures answer { Comes result (spec.reading store.now.entries kind space.now name.now) }
    ensures fits { IfOk result (IsFit store.now.entries) }
{
    require(is_served(kind), Refusal::NoSuchPath)?;
    let object = there(alloc, store, kind, space, name)?;
    Ok(Outcome::only(shown(alloc, 200, object)?))
}
