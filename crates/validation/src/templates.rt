//! The rules of a template.
ghost use Rattle.std.specs.Prelude.{◌≡◌};
ghost use Rattle.json_tree.specs.declared.value.Json.TheViews.{out-Json};
ghost use Rattle.validation.specs.Rules.{first_fault, template_lines, container_lines, limit_lines, has_image, containers, is_template_name, begins_with};

use crate::emptiness::is_empty;
use crate::places::{Invalid, Place, Rule};
use crate::verdict::keep;
use json_tree::{Json, Text};
use resource_types::{PodSpec, Template};
use serve_names::is_label;

/// The longest name of a Revision, in bytes.
pub(crate) const LONGEST_REVISION: u64 = 63;

#[tactic(auto, unfolding(crate::specs::Rules::template_lines), using(crate::proofs::Steps::fault_of_both))]
pub(crate) fn check_template(name: &Text, template: &Template) -> Result<(), Invalid>
    ensures { result ≡ first_fault (template_lines name.now template.now) }
{
    let is_named = is_empty(&template.name) || is_template_name(name, &template.name);
    keep(Place::TemplateName, Rule::TemplateName, is_named)?;
    let containers = containers(&template.spec);
    let fits = containers.len() >= 1 && containers.len() <= 16;
    keep(Place::Containers, Rule::Containers, fits)?;
    check_containers(containers)?;
    check_limits(&template.spec)
}

fn is_template_name(name: &Text, text: &Text) -> bool
    ensures { result ≡ is_template_name name.now text.now }
{
    is_label(text.bytes(), LONGEST_REVISION) && begins_with(name.bytes(), text.bytes())
}

fn begins_with(name: &[u8], text: &[u8]) -> bool
    ensures { result ≡ begins_with name.now text.now }
{
    text.starts_with(name) && text[name.len()..].starts_with(b"-")
}

fn containers(spec: &PodSpec) -> &[Json]
    ensures { result.now ≡ containers spec.now }
{
    match spec.rest.get("containers") {
        Some(Json::Arr(items)) => items.as_slice(),
        _ => &[],
    }
}

fn check_containers(containers: &[Json]) -> Result<(), Invalid>
    ensures { result ≡ first_fault (container_lines 0 containers.now) }
{
    for index in 0..containers.len() {
        let is_given = has_image(&containers[index]);
        keep(Place::Image(index as u64), Rule::Image, is_given)?;
    }
    Ok(())
}

fn has_image(container: &Json) -> bool
    ensures { result ≡ has_image (out-Json container.now) }
{
    match container {
        Json::Obj(members) => match members.get("image") {
            Some(Json::Str(image)) => !is_empty(image),
            _ => false,
        },
        _ => false,
    }
}

#[tactic(auto, unfolding(crate::specs::Rules::limit_lines))]
fn check_limits(spec: &PodSpec) -> Result<(), Invalid>
    ensures { result ≡ first_fault (limit_lines spec.now) }
{
    let fits = spec.concurrency.unwrap_or(0) <= 1000;
    keep(Place::ContainerConcurrency, Rule::Concurrency, fits)?;
    let fits = spec.timeout.unwrap_or(0) <= 600;
    keep(Place::TimeoutSeconds, Rule::Timeout, fits)
}
