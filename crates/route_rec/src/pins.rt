//! Pins of a Revision: the simple names of the Routes that hold it, in order of bytes.
ghost use Rattle.std.specs.Prelude.{◌≡◌, bytes_eq, IfOk};
ghost use Rattle.std.specs.List.{list_any, position};
ghost use Rattle.control_rules.specs.Standing.{active_of, listed, with_pins};
ghost use Rattle.control_rules.specs.NextRoute.{active_after, add_pin, drop_pin, moves_active, repinned};
ghost use Rattle.controller_parts.specs.Views.{due_plan};
ghost use Rattle.route_rec.specs.Pinning.{is_behind};

use controller_parts::Due;
use json_tree::{Copied, Seq, Text};
use resource_types::{Body, Object};
use std::alloc::{AllocError, Global};

// Whether one of the texts is this one.
fn has_text(texts: &[Text], text: &Text) -> bool
    ensures { result ≡ list_any (λ other. bytes_eq text.now other) texts.now }
{
    texts.iter().any(|other| *text == *other)
}

/// Whether the text is among the texts.
pub fn is_listed(text: &Text, texts: &[Text]) -> bool
    ensures { result ≡ listed text.now texts.now }
{
    has_text(texts, text)
}

// A copy of the pins.
fn copied(alloc: Global, pins: &[Text]) -> Result<Seq<Text>, AllocError>
    ensures { IfOk result (λ copy. copy ≡ pins.now) }
{
    let mut copy = Seq::with_capacity(alloc, pins.len())?;
    for pin in pins {
        copy.push(pin.copy(alloc)?)?;
    }
    Ok(copy)
}

// The place of the first pin that is greater than the new one.
fn place_behind(pins: &[Text], new: &Text) -> Option<usize>
    ensures { result ≡ position (is_behind new.now) pins.now }
{
    pins.iter().position(|pin| *new < *pin)
}

/// The pins with one more.
pub fn with_pin(alloc: Global, pins: &[Text], new: &Text) -> Result<Seq<Text>, AllocError>
    ensures { IfOk result (λ after. after ≡ add_pin new.now pins.now) }
{
    let place = place_behind(pins, new).unwrap_or(pins.len());
    let mut after = copied(alloc, pins)?;
    after.insert(place, new.copy(alloc)?)?;
    Ok(after)
}

/// The pins without one.
#[tactic(auto, unfolding(control_rules::specs::NextRoute::drop_pin))]
pub fn without_pin(alloc: Global, pins: &[Text], gone: &Text) -> Result<Seq<Text>, AllocError>
    ensures { IfOk result (λ after. after ≡ drop_pin gone.now pins.now) }
{
    let mut after = Seq::with_capacity(alloc, pins.len())?;
    for pin in pins {
        if *pin != *gone {
            after.push(pin.copy(alloc)?)?;
        }
    }
    Ok(after)
}

// Whether the pins become empty, or stop being empty.
fn moves_active(old: &[Text], new: &[Text]) -> bool
    ensures { result ≡ moves_active old.now new.now }
{
    if old.is_empty() {
        !new.is_empty()
    } else {
        new.is_empty()
    }
}

// The moment at which the pins last became empty or stopped being empty, where they were the old
// ones and get to be the new ones now.
fn active_after(old: &[Text], new: &[Text], now: u64, active: Option<u64>) -> Option<u64>
    ensures { result ≡ active_after old.now new.now now active }
{
    if moves_active(old, new) {
        Some(now)
    } else {
        active
    }
}

// The moment at which the Revision's pins last became empty or stopped being empty.
fn active_of(body: &Body) -> Option<u64>
    ensures { result ≡ active_of body.now }
{
    match body {
        Body::Revision { active, .. } => *active,
        _ => None,
    }
}

// A Revision with the pins and the moment.
fn with_pins(body: Body, new: Seq<Text>, moment: Option<u64>) -> Body
    ensures { result ≡ with_pins new moment body }
{
    match body {
        Body::Revision {
            spec,
            generation,
            pins: _,
            active: _,
            status,
        } => Body::Revision {
            spec,
            generation,
            pins: new,
            active: moment,
            status,
        },
        other => other,
    }
}

/// A copy of the Revision gets the pins, where they are others.
pub fn repinned(revision: Object, pins: Seq<Text>, now: u64) -> Due
    ensures { due_plan result ≡ repinned revision pins now }
{
    let Object { key, meta, body } = revision;
    let active = active_after(body.pins(), pins.as_slice(), now, active_of(&body));
    Due::Replacement(Object {
        key,
        meta,
        body: with_pins(body, pins, active),
    })
}
