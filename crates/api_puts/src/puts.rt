//! Putting the object that a manifest asks for.
ghost use Rattle.std.specs.Prelude.{◌≡◌, ◌≢◌, ◌<◌, ◌≤◌, ◌-◌, ◌^◌, None, length, IfOk};
ghost use Rattle.std.specs.Option.{option_copied, ForSome};
ghost use Rattle.http_session.specs.Reply.{IsReply, IsReplyCode};
ghost use Rattle.api_puts.specs.Objects as objects;
ghost use Rattle.api_outcomes.specs.Replies as replies;
ghost use Rattle.api_puts.specs.Puts as spec;
ghost use Rattle.resource_types.specs.Lookups.{Journal, state};
ghost use Rattle.resource_types.specs.Manifests.{object_kind};
ghost use Rattle.resource_codec.specs.Storable.{IsStorable};
ghost use Rattle.api_puts.specs.Puts.{StandsAs, AsksFor};
ghost use Rattle.api_outcomes.specs.Outcomes.{IsClientPut, CanBeMade, IsFit};
ghost use Rattle.control_rules.specs.Steps.{expect_of};

use crate::objects::{key_of, made_over};
use api_outcomes::{Outcome, shown};
use http_session::Reply;
use json_tree::Copied;
use resource_types::{ClientKind, Key, Manifest, Object};
use std::alloc::{AllocError, Global};
use version_store::{Change, Expect, Item, Plan, Store};

/// Where an object stands, or is to stand.
#[derive(Clone, Copy)]
pub struct Place<'a> {
    /// The kind.
    pub kind: ClientKind,
    /// The namespace.
    pub space: &'a str,
    /// The simple name.
    pub name: &'a str,
}

/// The object with the stamp that it gets when it is put.
fn with_stamp(store: &Store<Object>, moment: u64, object: Object) -> Object
    requires { length store.now.entries < 2 ^ 64 - 1 }
    ensures { result ≡ objects.with_stamp store.now.entries moment object }
{
    let mut object = object;
    let stamp = store.stamp_of(&object, moment);
    object.set_stamp(stamp);
    object
}

/// The reply that shows what stands once an object is put.
fn show_put(
    alloc: Global,
    code: u16,
    old: Option<&Object>,
    object: &Object,
) -> Result<Reply, AllocError>
    requires old { ForSome (option_copied old) IsStorable }
    requires storable { IsStorable object.now }
    requires code { IsReplyCode code }
    requires other { code ≢ 405 }
    ensures value { IfOk result (λ r. r ≡ replies.shown code (objects.put_over (option_copied old.entry) object.now)) }
    ensures reply { IfOk result IsReply }
{
    match old {
        Some(standing) if object.same(standing) => shown(alloc, code, standing),
        _ => shown(alloc, code, object),
    }
}

/// The object that a manifest asks for in its place, over the one that stands or over none, with the stamp that it gets.
fn object_put(
    alloc: Global,
    store: &Store<Object>,
    moment: u64,
    place: Place<'_>,
    old: Option<&Object>,
    manifest: Manifest,
) -> Result<Object, AllocError>
    requires room { length store.now.entries < 2 ^ 64 - 1 }
    requires asks { AsksFor place.kind place.space.now place.name.now manifest }
    requires over { option_copied old ≡ spec.standing store.now.entries (object_kind place.kind) place.space.now place.name.now }
    ensures value { IfOk result (λ o. o ≡ spec.object_put store.now.entries moment
        (spec.place_key place.entry.kind place.entry.space.now place.entry.name.now) (option_copied old.entry) manifest) }
    // It is one that a client may put over what stands.
    ensures client { IfOk result (λ o. IsClientPut (state store.now.entries) o.key o) }
{
    let of_kind = place.kind.kind();
    let key = key_of(alloc, of_kind, place.space, place.name)?;
    let made = made_over(alloc, key, old, manifest)?;
    Ok(with_stamp(store, moment, made))
}

/// The put of an object under its key.
fn put_of(alloc: Global, expect: Expect, object: Object) -> Result<Plan<Object>, AllocError>
    ensures { IfOk result (λ p. p ≡ spec.put_of expect object) }
{
    let key = object.key.copy(alloc)?;
    Ok(Plan {
        key,
        expect,
        guarded: false,
        change: Change::Put(object),
    })
}

/// Puts an object over the one that stands, or over none.
fn put(
    alloc: Global,
    code: u16,
    old: Option<&Object>,
    expect: Expect,
    object: Object,
) -> Result<Outcome, AllocError>
    requires old { ForSome (option_copied old) IsStorable }
    requires storable { IsStorable object }
    requires code { IsReplyCode code }
    requires other { code ≢ 405 }
    ensures value { IfOk result (λ o. o ≡ spec.puts code (option_copied old.entry) expect object) }
    ensures fits { (journal : Journal) → IsClientPut (state journal) object.key object → IfOk result (IsFit journal) }
{
    let reply = show_put(alloc, code, old, &object)?;
    let plan = put_of(alloc, expect, object)?;
    Ok(Outcome {
        reply,
        plan: Some(plan),
    })
}

/// Makes the object that a manifest asks for, where none stands.
pub fn make(
    alloc: Global,
    store: &Store<Object>,
    moment: u64,
    place: Place<'_>,
    manifest: Manifest,
) -> Result<Outcome, AllocError>
    requires room { length store.now.entries < 2 ^ 64 - 1 }
    requires asks { AsksFor place.kind place.space.now place.name.now manifest }
    requires free { spec.standing store.now.entries (object_kind place.kind) place.space.now place.name.now ≡ None }
    ensures value { IfOk result (λ o. o ≡ spec.makes store.now.entries moment place.entry.kind place.entry.space.now place.entry.name.now manifest) }
    ensures fits { IfOk result (IsFit store.now.entries) }
{
    let object = object_put(alloc, store, moment, place, None, manifest)?;
    put(alloc, 201, None, Expect::Absent, object)
}

/// Puts what a manifest makes of the object that stands.
pub fn replace(
    alloc: Global,
    store: &Store<Object>,
    moment: u64,
    place: Place<'_>,
    old: &Object,
    manifest: Manifest,
) -> Result<Outcome, AllocError>
    requires room { length store.now.entries < 2 ^ 64 - 1 }
    requires old { StandsAs store.now.entries (object_kind place.kind) place.space.now place.name.now old.now }
    requires asks { AsksFor place.kind place.space.now place.name.now manifest }
    ensures value { IfOk result (λ o. o ≡ spec.replaces store.now.entries moment place.entry.kind place.entry.space.now place.entry.name.now old.now manifest) }
    ensures fits { IfOk result (IsFit store.now.entries) }
{
    let expect = Expect::At(old.meta.stamp.version);
    let object = object_put(alloc, store, moment, place, Some(old), manifest)?;
    put(alloc, 200, Some(old), expect, object)
}

/// What stands is expected to stand.
fn expect_of(old: Option<&Object>) -> Expect
    ensures { result ≡ expect_of (option_copied old.entry) }
{
    match old {
        Some(object) => Expect::At(object.meta.stamp.version),
        None => Expect::Absent,
    }
}

/// The put of what a manifest makes of what stands under the key.
fn put_under(
    alloc: Global,
    store: &Store<Object>,
    key: Key,
    manifest: Manifest,
) -> Result<Plan<Object>, AllocError>
    ensures { IfOk result (λ p. p ≡ spec.put_under store.now.entries key manifest) }
{
    let old = store.get(&key);
    let expect = expect_of(old);
    let object = made_over(alloc, key, old, manifest)?;
    put_of(alloc, expect, object)
}

/// The put of what a manifest makes of what stands under its own kind, namespace and name, or of none where none stands.
///
/// No name that the manifest leaves out is given to it, and no version that it names is compared.
pub fn put_manifest(
    alloc: Global,
    store: &Store<Object>,
    kind: ClientKind,
    manifest: Manifest,
) -> Result<Plan<Object>, AllocError>
    requires { AsksFor kind manifest.namespace manifest.name manifest }
    ensures value { IfOk result (λ p. p ≡ spec.manifest_put store.now.entries kind manifest) }
    ensures made { IfOk result (CanBeMade store.now.entries) }
{
    let space = manifest.namespace.as_str();
    let key = key_of(alloc, kind.kind(), space, manifest.name.as_str())?;
    put_under(alloc, store, key, manifest)
}
