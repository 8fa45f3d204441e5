//! Reading a manifest.
ghost use Rattle.std.specs.Prelude.{◌≡◌, ℕ, ◌≤◌, ◌-◌, IsTrue, IfOk};
ghost use Rattle.json_tree.specs.Tree.{is_well_formed, depth_of};
ghost use Rattle.resource_codec.specs.Written.{object_of, kind_of};
ghost use Rattle.resource_codec.specs.Sound.{Fits, Sound, RestOfSpecFits, TemplateRises, SpecRises, ManifestRises};
ghost use Rattle.resource_codec.specs.Reading.{Gives};
ghost use Rattle.resource_codec.specs.Shape.{Decodes, template_in, target_in, targets_in, traffic_in, spec_in, shape};

use crate::fields::{DecodeError, Field, TargetField};
use crate::reading::{
    object, object_under, optional_array, optional_number, optional_object, optional_text,
    optional_texts, optional_truth, rest_of, text,
};
use json_tree::{Json, Members, Seq, Text};
use resource_types::{ClientKind, Manifest, ManifestSpec, PodSpec, Target, Template};
use std::alloc::Global;

/// The manifest of a kind that a value is, or the first field that is wrong.
///
/// Fields are examined from the top of the list of [`Field`], those of the targets target by target. A null counts as
/// absent, and so does an empty text, save for `apiVersion`, `kind` and `metadata.name`. Members that are no fields
/// are dropped, save in `spec.template.spec`, where all are kept but nulls.
#[tactic(auto, unfolding(crate::specs::Shape::shape))]
pub fn decode(alloc: Global, kind: ClientKind, json: &Json) -> Result<Manifest, DecodeError>
    ensures shape { Decodes result (shape kind json.now) }
    ensures kind { IfOk result (λ m. kind_of m.spec ≡ kind) }
    // A well-formed value has a well-formed rest, which is three levels less deep.
    ensures rest { IsTrue (is_well_formed json.now)
        → IfOk result (λ m. RestOfSpecFits 3 (depth_of json.now) m.spec) }
    // The names of labels and annotations rise.
    ensures rise { IsTrue (is_well_formed json.now) → IfOk result ManifestRises }
{
    let body = Some(object(json, Field::Body)?);
    let api = text(alloc, body, "apiVersion", Field::ApiVersion)?;
    let kind_name = text(alloc, body, "kind", Field::Kind)?;
    let metadata = Some(object_under(body, "metadata", Field::Metadata)?);
    let name = text(alloc, metadata, "name", Field::Name)?;
    let namespace = optional_text(alloc, metadata, "namespace", Field::Namespace)?;
    let version = optional_text(alloc, metadata, "resourceVersion", Field::ResourceVersion)?;
    let labels = optional_texts(alloc, metadata, "labels", Field::Labels)?;
    let annotations = optional_texts(alloc, metadata, "annotations", Field::Annotations)?;
    let members = object_under(body, "spec", Field::Spec)?;
    let spec = spec_in(alloc, kind, members)?;
    Ok(Manifest {
        api,
        kind: kind_name,
        name,
        namespace,
        version,
        labels,
        annotations,
        spec,
    })
}

#[tactic(auto, unfolding(crate::specs::Shape::spec_in))]
fn spec_in(alloc: Global, kind: ClientKind, members: &Members) -> Result<ManifestSpec, DecodeError>
    ensures value { Gives (λ s. s) result (spec_in kind members.now.entries) }
    ensures kind { IfOk result (λ s. kind_of s ≡ kind) }
    ensures rest { (n : ℕ) → Sound n members.now.entries
        → IfOk result (λ s. RestOfSpecFits 1 n s) }
    ensures rise { (n : ℕ) → Sound n members.now.entries → IfOk result SpecRises }
{
    match kind {
        ClientKind::Service => {
            let template = template_in(alloc, members)?;
            let traffic = traffic_in(alloc, members)?;
            Ok(ManifestSpec::Service { template, traffic })
        }
        ClientKind::Configuration => {
            let template = template_in(alloc, members)?;
            Ok(ManifestSpec::Configuration { template })
        }
        ClientKind::Route => {
            let traffic = traffic_in(alloc, members)?;
            Ok(ManifestSpec::Route { traffic })
        }
    }
}

#[tactic(auto, unfolding(crate::specs::Shape::template_in))]
fn template_in(alloc: Global, members: &Members) -> Result<Template, DecodeError>
    ensures value { Gives (λ t. t) result (template_in members.now.entries) }
    ensures rest { (n : ℕ) → Sound n members.now.entries
        → IfOk result (λ t. (2 ≤ n) × Fits (n - 1) (object_of t.spec.rest.entries)) }
    ensures rise { (n : ℕ) → Sound n members.now.entries
        → IfOk result TemplateRises }
{
    let template = Some(object_under(Some(members), "template", Field::Template)?);
    let metadata = optional_object(template, "metadata", Field::TemplateMetadata)?;
    let name = optional_text(alloc, metadata, "name", Field::TemplateName)?;
    let labels = optional_texts(alloc, metadata, "labels", Field::TemplateLabels)?;
    let annotations = optional_texts(alloc, metadata, "annotations", Field::TemplateAnnotations)?;
    let pod = object_under(template, "spec", Field::TemplateSpec)?;
    let concurrency = optional_number(Some(pod), "containerConcurrency", Field::Concurrency)?;
    let timeout = optional_number(Some(pod), "timeoutSeconds", Field::Timeout)?;
    let rest = rest_of(alloc, pod)?;
    Ok(Template {
        name,
        labels,
        annotations,
        spec: PodSpec {
            concurrency,
            timeout,
            rest,
        },
    })
}

#[tactic(auto, unfolding(crate::specs::Shape::target_in))]
fn target_in(alloc: Global, index: u64, json: &Json) -> Result<Target, DecodeError>
    ensures { Gives (λ t. t) result (target_in index json.now) }
{
    let target = Some(object(json, Field::Target(index, TargetField::Whole))?);
    let configuration = optional_text(
        alloc,
        target,
        "configurationName",
        Field::Target(index, TargetField::ConfigurationName),
    )?;
    let latest = optional_truth(
        target,
        "latestRevision",
        Field::Target(index, TargetField::LatestRevision),
    )?;
    let percent = optional_number(
        target,
        "percent",
        Field::Target(index, TargetField::Percent),
    )?;
    let revision = optional_text(
        alloc,
        target,
        "revisionName",
        Field::Target(index, TargetField::RevisionName),
    )?;
    let tag = optional_text(alloc, target, "tag", Field::Target(index, TargetField::Tag))?;
    Ok(Target {
        configuration,
        revision,
        latest,
        percent,
        tag,
        url: Text::new(alloc, "")?,
    })
}

#[tactic(auto, unfolding(crate::specs::Shape::traffic_in, crate::specs::Shape::targets_in))]
fn traffic_in(alloc: Global, members: &Members) -> Result<Seq<Target>, DecodeError>
    ensures { Gives (λ ts. ts) result (traffic_in members.now.entries) }
{
    match optional_array(Some(members), "traffic", Field::Traffic)? {
        Some(jsons) => targets_in(alloc, jsons.as_slice()),
        None => Ok(Seq::new(alloc)),
    }
}

fn targets_in(alloc: Global, jsons: &[Json]) -> Result<Seq<Target>, DecodeError>
    ensures { Gives (λ ts. ts) result (targets_in 0 jsons.now) }
{
    let mut targets = Seq::with_capacity(alloc, jsons.len())?;
    for index in 0..jsons.len() {
        let target = target_in(alloc, index as u64, &jsons[index])?;
        targets.push(target)?;
    }
    Ok(targets)
}
