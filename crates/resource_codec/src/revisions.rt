//! The labels and annotations that are shown of a Revision.
ghost use Rattle.std.specs.Prelude.{◌≡◌, ◌++◌, ◌∷◌, string_bytes, IfOk, OnOk};
ghost use Rattle.std.specs.List.{flat_map};
ghost use Rattle.resource_codec.specs.Objects.{with_comma, joined, routing_state, shown_labels, with_routes, shown_annotations};

use crate::statuses::shown_moment;
use json_tree::{Seq, Text};
use resource_types::Labels;
use std::alloc::{AllocError, Global};

fn push_name(text: &mut String, name: &Text) -> Result<(), AllocError>
    ensures { OnOk result (string_bytes text.new ≡ string_bytes text.old ++ (44 ∷ name.now)) }
{
    text.push_str(",")?;
    text.push_str(name.as_str())?;
    Ok(())
}

// Each name after a comma.
fn push_names(text: &mut String, names: &[Text]) -> Result<(), AllocError>
    ensures { OnOk result (string_bytes text.new ≡ string_bytes text.old ++ flat_map with_comma names.now) }
{
    for name in names {
        push_name(text, name)?;
    }
    Ok(())
}

// Names joined by commas.
fn joined(alloc: Global, names: &[Text]) -> Result<Text, AllocError>
    ensures { IfOk result (λ t. t ≡ joined names.now) }
{
    if names.is_empty() {
        return Text::new(alloc, "");
    }
    let mut text = String::from_str(alloc, names[0].as_str())?;
    push_names(&mut text, &names[1..])?;
    Ok(Text::from_string(text))
}

fn routing_state(pins: &Seq<Text>) -> &'static str
    ensures { result.now ≡ routing_state pins.now }
{
    if pins.is_empty() { "reserve" } else { "active" }
}

/// The labels of a Revision, with `serving.knative.dev/routingState`: `active` where it has pins, else `reserve`.
#[tactic(auto, unfolding(crate::specs::Objects::shown_labels))]
pub fn shown_labels(alloc: Global, pins: &Seq<Text>, labels: &Labels) -> Result<Labels, AllocError>
    ensures { IfOk result (λ t. t ≡ shown_labels pins.now labels.now) }
{
    let mut shown = labels.copy(alloc)?;
    let name = Text::new(alloc, "serving.knative.dev/routingState")?;
    let state = Text::new(alloc, routing_state(pins))?;
    shown.put(name, state)?;
    Ok(shown)
}

fn put_routes(alloc: Global, pins: &Seq<Text>, shown: &mut Labels) -> Result<(), AllocError>
    ensures { OnOk result (shown.new.entries ≡ with_routes pins.now shown.old.entries) }
{
    if pins.is_empty() {
        return Ok(());
    }
    let name = Text::new(alloc, "serving.knative.dev/routes")?;
    let routes = joined(alloc, pins.as_slice())?;
    shown.put(name, routes)
}

/// The annotations of a Revision, with `serving.knative.dev/routingStateModified`, a moment, and, where it has pins,
/// with `serving.knative.dev/routes`, their names joined by commas.
#[tactic(auto, unfolding(crate::specs::Objects::shown_annotations))]
pub fn shown_annotations(
    alloc: Global,
    pins: &Seq<Text>,
    modified: u64,
    annotations: &Labels,
) -> Result<Labels, AllocError>
    ensures { IfOk result (λ t. t ≡ shown_annotations pins.now modified annotations.now) }
{
    let mut shown = annotations.copy(alloc)?;
    let name = Text::new(alloc, "serving.knative.dev/routingStateModified")?;
    let moment = shown_moment(alloc, modified)?;
    shown.put(name, moment)?;
    put_routes(alloc, pins, &mut shown)?;
    Ok(shown)
}
