//! Objects as JSON.
ghost use Rattle.std.specs.Prelude.{◌≡◌, ◌≤◌, IsTrue, IfOk, Ok, unwrap_or};
ghost use Rattle.json_tree.specs.Tree.{is_well_formed, depth_of};
ghost use Rattle.resource_types.specs.Manifests.{manifest_of};
ghost use Rattle.resource_codec.specs.Shape.{shape};
ghost use Rattle.resource_codec.specs.Written.{metadata_members, pod_members, kind_of, IsRegular};
ghost use Rattle.resource_codec.specs.Objects.{owner_members, owners_of, object_metadata, object_document, shown_labels, shown_annotations, encoded, IsClientBody, IsWellObject};

use crate::adding::{add_array, add_made, add_number, add_text, add_texts, add_truth, add_word};
use crate::revisions::{shown_annotations, shown_labels};
use crate::statuses::{shown_moment, status_members};
use crate::tables::table_members;
use crate::writing::{configuration_spec, document, pod_members, route_spec, service_spec};
use json_tree::{Json, Members, Seq, Text};
use resource_types::{
    Body, Labels, Object, ObjectStatus, Owner, PodSpec, api_version, decimal_text,
};
use serve_names::uid_text;
use std::alloc::{AllocError, Global};

// The most fields of an object's metadata.
const METADATA_FIELDS: usize = 9;

/// An object as JSON, by the kind of its body. A Health is not shown: it gives null.
///
/// A Service, a Configuration or a Route has the form of its manifest, with what the store says of it, its owner and
/// its status. A Revision has its pod spec as `spec`, and its pins among its labels and annotations.
pub fn encode(alloc: Global, object: &Object) -> Result<Json, AllocError>
    ensures encoded { IfOk result (λ j. j ≡ encoded object.now) }
    // What is shown of an object that clients write is read as its manifest, where that is regular.
    ensures again { IsClientBody object.now.body → IsRegular (manifest_of object.now)
        → IfOk result (λ j. shape (kind_of (manifest_of object.now).spec) j ≡ Ok (manifest_of object.now)) }
    ensures well { IsWellObject object.now
        → IfOk result (λ j. IsTrue (is_well_formed j) × (depth_of j ≤ 40)) }
{
    object_json(alloc, object)
}

fn object_json(alloc: Global, object: &Object) -> Result<Json, AllocError>
    ensures { IfOk result (λ j. j ≡ encoded object.now) }
{
    match &object.body {
        Body::Service {
            template,
            traffic,
            status,
        } => {
            let spec = service_spec(alloc, template, traffic)?;
            own_document(alloc, object, spec, status)
        }
        Body::Configuration { template, status } => {
            let spec = configuration_spec(alloc, template)?;
            own_document(alloc, object, spec, status)
        }
        Body::Revision {
            spec,
            pins,
            active,
            status,
            ..
        } => { revision_document(alloc, object, spec, pins, *active, status) }
        Body::Route { traffic, status } => {
            let spec = route_spec(alloc, traffic)?;
            own_document(alloc, object, spec, status)
        }
        Body::Health { .. } => Ok(Json::Null),
        Body::Table {
            route,
            rows,
            targets,
        } => { Ok(Json::Obj(table_members(alloc, object, *route, rows, targets)?)) }
    }
}

// A document with the object's own labels and annotations.
fn own_document(
    alloc: Global,
    object: &Object,
    spec: Members,
    status: &ObjectStatus,
) -> Result<Json, AllocError>
    ensures { IfOk result (λ j. j ≡ object_document object.now object.now.meta.labels object.now.meta.annotations spec.entries status.now) }
{
    let meta = &object.meta;
    shown_document(alloc, object, &meta.labels, &meta.annotations, spec, status)
}

fn revision_document(
    alloc: Global,
    object: &Object,
    pod: &PodSpec,
    pins: &Seq<Text>,
    active: Option<u64>,
    status: &ObjectStatus,
) -> Result<Json, AllocError>
    ensures { IfOk result (λ j. j ≡ object_document object.now (shown_labels pins.now object.now.meta.labels)
        (shown_annotations pins.now (unwrap_or active object.now.meta.stamp.created) object.now.meta.annotations)
        (pod_members pod.now) status.now) }
{
    let modified = active.unwrap_or(object.meta.stamp.created);
    let labels = shown_labels(alloc, pins, &object.meta.labels)?;
    let annotations = shown_annotations(alloc, pins, modified, &object.meta.annotations)?;
    let spec = pod_members(alloc, pod)?;
    shown_document(alloc, object, &labels, &annotations, spec, status)
}

// A document with the labels and annotations that are given.
fn shown_document(
    alloc: Global,
    object: &Object,
    labels: &Labels,
    annotations: &Labels,
    spec: Members,
    status: &ObjectStatus,
) -> Result<Json, AllocError>
    ensures { IfOk result (λ j. j ≡ object_document object.now labels.now annotations.now spec.entries status.now) }
{
    let metadata = object_metadata(alloc, object, labels, annotations)?;
    let found = status_members(alloc, status)?;
    let (api, kind) = (api_version(), object.key.kind.as_str());
    document(alloc, api, kind, metadata, spec, Some(Json::Obj(found)))
}

fn object_metadata(
    alloc: Global,
    object: &Object,
    labels: &Labels,
    annotations: &Labels,
) -> Result<Members, AllocError>
    ensures { IfOk result (λ m. m.entries ≡ metadata_members (object_metadata object.now labels.now annotations.now)) }
{
    let mut members = Members::with_capacity(alloc, METADATA_FIELDS)?;
    let stamp = object.meta.stamp;
    add_texts(alloc, &mut members, "annotations", annotations)?;
    let created = shown_moment(alloc, stamp.created)?;
    add_made(alloc, &mut members, "creationTimestamp", created)?;
    add_number(alloc, &mut members, "generation", Some(stamp.generation))?;
    add_texts(alloc, &mut members, "labels", labels)?;
    add_text(alloc, &mut members, "name", &object.key.name.name)?;
    add_text(alloc, &mut members, "namespace", &object.key.name.space)?;
    let owners = owner_jsons(alloc, &object.meta.owner)?;
    add_array(alloc, &mut members, "ownerReferences", owners)?;
    let version = decimal_text(alloc, stamp.version)?;
    add_made(alloc, &mut members, "resourceVersion", version)?;
    let uid = uid_text(alloc, stamp.uid)?;
    add_made(alloc, &mut members, "uid", uid)?;
    Ok(members)
}

fn owner_jsons(alloc: Global, owner: &Option<Owner>) -> Result<Seq<Json>, AllocError>
    ensures { IfOk result (λ js. js ≡ owners_of owner.now) }
{
    let mut jsons = Seq::new(alloc);
    if let Some(owner) = owner {
        let members = owner_members(alloc, owner)?;
        jsons.push(Json::Obj(members))?;
    }
    Ok(jsons)
}

fn owner_members(alloc: Global, owner: &Owner) -> Result<Members, AllocError>
    ensures { IfOk result (λ m. m.entries ≡ owner_members owner.now) }
{
    let mut members = Members::new(alloc);
    add_word(alloc, &mut members, "apiVersion", api_version())?;
    add_truth(alloc, &mut members, "controller", Some(true))?;
    add_word(alloc, &mut members, "kind", owner.kind.as_str())?;
    add_text(alloc, &mut members, "name", &owner.name)?;
    let uid = uid_text(alloc, owner.uid)?;
    add_made(alloc, &mut members, "uid", uid)?;
    Ok(members)
}
