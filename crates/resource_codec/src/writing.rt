//! The parts that manifests and objects share, as JSON.
ghost use Rattle.std.specs.Prelude.{◌≡◌, IfOk, OnOk, map};
ghost use Rattle.resource_codec.specs.Written.{put_field, number_field, object_of, pod_members, template_metadata, template_members, target_members, target_json, spec_members, document_json};
ghost use Rattle.resource_types.specs.declared.manifests.ManifestSpec.TheVariants as kind;

use crate::adding::{
    add, add_array, add_json, add_number, add_object, add_text, add_texts, add_truth, add_word,
};
use json_tree::{Json, Members, Seq};
use resource_types::{PodSpec, Target, Template};
use std::alloc::{AllocError, Global};

/// The most fields of a document.
const DOCUMENT_FIELDS: usize = 5;

/// The most fields of a target, its `url` among them.
const TARGET_FIELDS: usize = 6;

/// A document: `metadata` is left out where it is empty, `spec` always stands, and `status` where there is one.
pub fn document(
    alloc: Global,
    api: &str,
    kind: &str,
    metadata: Members,
    spec: Members,
    status: Option<Json>,
) -> Result<Json, AllocError>
    ensures { IfOk result (λ j. j ≡ document_json (record {
      api = api.now;
      kind = kind.now;
      metadata = metadata.entries;
      spec = spec.entries;
      status = status;
    })) }
{
    let mut members = Members::with_capacity(alloc, DOCUMENT_FIELDS)?;
    add_word(alloc, &mut members, "apiVersion", api)?;
    add_word(alloc, &mut members, "kind", kind)?;
    add_object(alloc, &mut members, "metadata", metadata)?;
    add(alloc, &mut members, "spec", Json::Obj(spec))?;
    add_json(alloc, &mut members, "status", status)?;
    Ok(Json::Obj(members))
}

/// The `spec` of a Service.
pub fn service_spec(
    alloc: Global,
    template: &Template,
    traffic: &Seq<Target>,
) -> Result<Members, AllocError>
    ensures { IfOk result (λ m. m.entries ≡ spec_members (kind.Service template.now traffic.now)) }
{
    let mut members = Members::new(alloc);
    let template = template_members(alloc, template)?;
    add(alloc, &mut members, "template", Json::Obj(template))?;
    let targets = target_jsons(alloc, traffic)?;
    add_array(alloc, &mut members, "traffic", targets)?;
    Ok(members)
}

/// The `spec` of a Configuration.
pub fn configuration_spec(alloc: Global, template: &Template) -> Result<Members, AllocError>
    ensures { IfOk result (λ m. m.entries ≡ spec_members (kind.Configuration template.now)) }
{
    let mut members = Members::new(alloc);
    let template = template_members(alloc, template)?;
    add(alloc, &mut members, "template", Json::Obj(template))?;
    Ok(members)
}

/// The `spec` of a Route.
pub fn route_spec(alloc: Global, traffic: &Seq<Target>) -> Result<Members, AllocError>
    ensures { IfOk result (λ m. m.entries ≡ spec_members (kind.Route traffic.now)) }
{
    let mut members = Members::new(alloc);
    let targets = target_jsons(alloc, traffic)?;
    add_array(alloc, &mut members, "traffic", targets)?;
    Ok(members)
}

fn template_members(alloc: Global, template: &Template) -> Result<Members, AllocError>
    ensures { IfOk result (λ m. m.entries ≡ template_members template.now) }
{
    let mut members = Members::new(alloc);
    let metadata = template_metadata(alloc, template)?;
    add_object(alloc, &mut members, "metadata", metadata)?;
    let spec = pod_members(alloc, &template.spec)?;
    add(alloc, &mut members, "spec", Json::Obj(spec))?;
    Ok(members)
}

fn template_metadata(alloc: Global, template: &Template) -> Result<Members, AllocError>
    ensures { IfOk result (λ m. m.entries ≡ template_metadata template.now) }
{
    let mut members = Members::new(alloc);
    add_texts(alloc, &mut members, "annotations", &template.annotations)?;
    add_texts(alloc, &mut members, "labels", &template.labels)?;
    add_text(alloc, &mut members, "name", &template.name)?;
    Ok(members)
}

/// A pod spec: its two numbers among the members that are kept as they were given.
#[tactic(auto, unfolding(crate::specs::Written::pod_members))]
pub fn pod_members(alloc: Global, spec: &PodSpec) -> Result<Members, AllocError>
    ensures { IfOk result (λ m. m.entries ≡ pod_members spec.now) }
{
    let mut members = spec.rest.copy(alloc)?;
    put_number(&mut members, "containerConcurrency", spec.concurrency)?;
    put_number(&mut members, "timeoutSeconds", spec.timeout)?;
    Ok(members)
}

// Puts a number, if there is one, between the names before and after its own.
#[tactic(auto, unfolding(crate::specs::Written::put_field, crate::specs::Written::number_field))]
fn put_number(members: &mut Members, name: &str, number: Option<u64>) -> Result<(), AllocError>
    ensures { OnOk result (members.new.entries ≡ put_field name.now (number_field number) members.old.entries) }
{
    match number {
        Some(number) => members.put_named(name, Json::Nat(number)),
        None => Ok(()),
    }
}

/// A target of a spec, without its `url`.
pub fn target_members(alloc: Global, target: &Target) -> Result<Members, AllocError>
    ensures { IfOk result (λ m. m.entries ≡ target_members target.now) }
{
    let mut members = Members::with_capacity(alloc, TARGET_FIELDS)?;
    add_text(
        alloc,
        &mut members,
        "configurationName",
        &target.configuration,
    )?;
    add_truth(alloc, &mut members, "latestRevision", target.latest)?;
    add_number(alloc, &mut members, "percent", target.percent)?;
    add_text(alloc, &mut members, "revisionName", &target.revision)?;
    add_text(alloc, &mut members, "tag", &target.tag)?;
    Ok(members)
}

fn target_jsons(alloc: Global, targets: &Seq<Target>) -> Result<Seq<Json>, AllocError>
    ensures { IfOk result (λ js. js ≡ map target_json targets.now) }
{
    let mut jsons = Seq::with_capacity(alloc, targets.len())?;
    for target in targets.as_slice() {
        let members = target_members(alloc, target)?;
        jsons.push(Json::Obj(members))?;
    }
    Ok(jsons)
}
