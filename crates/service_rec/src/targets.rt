//! The targets of a Service's Route.
ghost use Rattle.std.specs.Prelude.{◌≡◌, ◌↔◌, IsTrue, IfOk, map};
ghost use Rattle.control_rules.specs.NextService.{converted_target, same_targets};
ghost use Rattle.service_rec.specs.Targets.{target_on};

use controller_parts::is_blank;
use json_tree::{Alike, Copied, Seq, Text};
use resource_types::{Name, Target};
use std::alloc::{AllocError, Global};

// The Configuration that the Route's target is on: the Service's, where the target names no Revision.
fn configuration_of<'a>(name: &'a Name, target: &'a Target) -> &'a Text
    ensures { result.now ≡ (converted_target name.now target.now).configuration }
{
    if is_blank(&target.revision) {
        return &name.name;
    }
    &target.configuration
}

// The Service's target as one of its Route.
fn converted_target(alloc: Global, name: &Name, target: &Target) -> Result<Target, AllocError>
    ensures { IfOk result (λ t. t ≡ converted_target name.now target.now) }
{
    let configuration = configuration_of(name, target).copy(alloc)?;
    let revision = target.revision.copy(alloc)?;
    let tag = target.tag.copy(alloc)?;
    let url = target.url.copy(alloc)?;
    Ok(Target {
        configuration,
        revision,
        latest: target.latest,
        percent: target.percent,
        tag,
        url,
    })
}

/// The targets of the Route, from those of the Service of the name.
pub fn converted_targets(
    alloc: Global,
    name: &Name,
    targets: &[Target],
) -> Result<Seq<Target>, AllocError>
    ensures { IfOk result (λ ts. ts ≡ map (converted_target name.now) targets.now) }
{
    let mut converted = Seq::with_capacity(alloc, targets.len())?;
    for target in targets {
        converted.push(converted_target(alloc, name, target)?)?;
    }
    Ok(converted)
}

// Whether the one target is the other on that Configuration.
fn is_target_on(one: &Target, configuration: &Text, target: &Target) -> bool
    ensures { IsTrue result ↔ (one.now ≡ target_on configuration.now target.now) }
{
    one.configuration.equals(configuration)
        && one.revision.equals(&target.revision)
        && one.latest.equals(&target.latest)
        && one.percent.equals(&target.percent)
        && one.tag.equals(&target.tag)
        && one.url.equals(&target.url)
}

// Whether the Route's target is the Service's, converted.
fn is_converted(name: &Name, old: &Target, target: &Target) -> bool
    ensures { IsTrue result ↔ (old.now ≡ converted_target name.now target.now) }
{
    is_target_on(old, configuration_of(name, target), target)
}

// Whether the Route's targets are the Service's, converted.
fn are_converted(name: &Name, old: &[Target], targets: &[Target]) -> bool
    ensures { IsTrue result ↔ (old.now ≡ map (converted_target name.now) targets.now) }
{
    if old.len() != targets.len() {
        return false;
    }
    for place in 0..old.len() {
        if !is_converted(name, &old[place], &targets[place]) {
            return false;
        }
    }
    true
}

/// Whether the Route's targets are those of the Service of the name. No target is copied.
pub fn has_targets(name: &Name, old: &[Target], targets: &[Target]) -> bool
    ensures { result ≡ same_targets old.now (map (converted_target name.now) targets.now) }
{
    are_converted(name, old, targets)
}
