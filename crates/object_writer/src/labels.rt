//! The labels and the annotations that are shown of an object: a Revision's have what its pins say among them.
ghost use Rattle.std.specs.Prelude.{◌≡◌, ◌++◌, ◌∷◌, Some, codes, map, string_bytes, IfOk, OnOk};
ghost use Rattle.std.specs.List.{flat_map};
ghost use Rattle.json_tree.specs.declared.value.Json.{Str};
ghost use Rattle.resource_codec.specs.Written.{text_member, texts_field};
ghost use Rattle.resource_codec.specs.Objects.{with_comma, joined, routing_state, shown_labels, shown_annotations};
ghost use Rattle.object_writer.specs.Tokens.{with_field, WritesUpTo};
ghost use Rattle.object_writer.specs.Documents.{routes_field, body_labels, body_annotations};

use crate::places::{entries_behind, place_before};
use crate::statuses::shown_moment;
use crate::text::JsonText;
use json_tree::{Seq, Text};
use resource_types::{Body, Labels, Object};
use std::alloc::{AllocError, Global};

fn push_name(text: &mut String, name: &Text) -> Result<(), AllocError>
    ensures { OnOk result (string_bytes text.new ≡ string_bytes text.old ++ (44 ∷ name.now)) }
{
    text.push_str(",")?;
    text.push_str(name.as_str())?;
    Ok(())
}

// Each name after a comma.
fn push_names(text: &mut String, names: &[Text]) -> Result<(), AllocError>
    ensures { OnOk result (string_bytes text.new ≡ string_bytes text.old ++ flat_map with_comma names.now) }
{
    for name in names {
        push_name(text, name)?;
    }
    Ok(())
}

// Names joined by commas.
fn joined(alloc: Global, names: &[Text]) -> Result<Text, AllocError>
    ensures { IfOk result (λ t. t ≡ joined names.now) }
{
    if names.is_empty() {
        return Text::new(alloc, "");
    }
    let mut text = String::from_str(alloc, names[0].as_str())?;
    push_names(&mut text, &names[1..])?;
    Ok(Text::from_string(text))
}

fn routing_state(pins: &Seq<Text>) -> &'static str
    ensures { result.now ≡ routing_state pins.now }
{
    if pins.is_empty() { "reserve" } else { "active" }
}

// Writes the texts up to a name, and the text that stands under it; it gives those that are left.
fn write_up_to<'a>(
    out: &mut JsonText,
    texts: &'a [(Text, Text)],
    name: &str,
    text: &str,
) -> Result<&'a [(Text, Text)], AllocError>
    ensures { IfOk result (λ left. WritesUpTo name.now (Some (Str text.now))
        (map text_member texts.now) (map text_member left.now) out.old out.new) }
{
    let place = place_before(texts, name);
    out.texts(&texts[..place])?;
    out.name(name)?;
    out.text(text)?;
    Ok(entries_behind(&texts[place..], name))
}

// Writes a Revision's labels, with its routing state.
fn revision_labels(out: &mut JsonText, pins: &Seq<Text>, labels: &Labels) -> Result<(), AllocError>
    ensures { OnOk result (out.new ≡ with_field (codes "labels") (texts_field (shown_labels pins.now labels.now)) out.old) }
{
    out.name("labels")?;
    out.open_object()?;
    let state = routing_state(pins);
    let rest = write_up_to(
        out,
        labels.entries(),
        "serving.knative.dev/routingState",
        state,
    )?;
    out.texts(rest)?;
    out.close_object()
}

// Writes the annotations up to the names of the pins, if there are any; it gives those that are left.
fn write_routes<'a>(
    alloc: Global,
    out: &mut JsonText,
    pins: &Seq<Text>,
    annotations: &'a [(Text, Text)],
) -> Result<&'a [(Text, Text)], AllocError>
    ensures { IfOk result (λ left. WritesUpTo (codes "serving.knative.dev/routes") (routes_field pins.now)
        (map text_member annotations.now) (map text_member left.now) out.old out.new) }
{
    if pins.is_empty() {
        return Ok(annotations);
    }
    let routes = joined(alloc, pins.as_slice())?;
    write_up_to(
        out,
        annotations,
        "serving.knative.dev/routes",
        routes.as_str(),
    )
}

// Writes a Revision's annotations, with its pins and the moment from which they are some or none.
fn revision_annotations(
    alloc: Global,
    out: &mut JsonText,
    pins: &Seq<Text>,
    modified: u64,
    annotations: &Labels,
) -> Result<(), AllocError>
    ensures { OnOk result (out.new ≡ with_field (codes "annotations")
        (texts_field (shown_annotations pins.now modified annotations.now)) out.old) }
{
    let moment = shown_moment(alloc, modified)?;
    out.name("annotations")?;
    out.open_object()?;
    let rest = write_routes(alloc, out, pins, annotations.entries())?;
    let rest = write_up_to(
        out,
        rest,
        "serving.knative.dev/routingStateModified",
        moment.as_str(),
    )?;
    out.texts(rest)?;
    out.close_object()
}

/// Writes the labels that are shown of an object, if there are any.
pub fn labels_field(out: &mut JsonText, object: &Object) -> Result<(), AllocError>
    ensures { OnOk result (out.new ≡ with_field (codes "labels") (texts_field (body_labels object.now object.now.body)) out.old) }
{
    match &object.body {
        Body::Revision { pins, .. } => revision_labels(out, pins, &object.meta.labels),
        _ => out.texts_field("labels", &object.meta.labels),
    }
}

/// Writes the annotations that are shown of an object, if there are any.
pub fn annotations_field(
    alloc: Global,
    out: &mut JsonText,
    object: &Object,
) -> Result<(), AllocError>
    ensures { OnOk result (out.new ≡ with_field (codes "annotations")
        (texts_field (body_annotations object.now object.now.body)) out.old) }
{
    match &object.body {
        Body::Revision { pins, active, .. } => {
            let modified = active.unwrap_or(object.meta.stamp.created);
            revision_annotations(alloc, out, pins, modified, &object.meta.annotations)
        }
        _ => out.texts_field("annotations", &object.meta.annotations),
    }
}
