//! The Configuration and the Route of a Service: as they are made, and as they get what the Service has.
ghost use Rattle.std.specs.Prelude.{◌≡◌, IfOk};
ghost use Rattle.resource_types.specs.Objects.{IsOf};
ghost use Rattle.control_rules.specs.Standing.{template_of, with_targets, with_template};
ghost use Rattle.control_rules.specs.Differences.{one_label, service_label};
ghost use Rattle.control_rules.specs.NextService.{converted, same_template};
ghost use Rattle.service_rec.specs.Children.{child_meta, made_configuration, made_route, with_body};

use crate::targets::converted_targets;
use controller_parts::{owner_by, template_of};
use json_tree::{Alike, Copied, Seq, Table};
use resource_types::{Body, Key, Kind, Labels, Meta, Name, Object, ObjectStatus, Target, Template};
use std::alloc::{AllocError, Global};
use version_store::Stamp;

/// The template of a Service.
pub fn service_template(service: &Object) -> &Template
    requires { IsOf Kind.Service service.now }
    ensures { result.now ≡ template_of service.now.body }
{
    match &service.body {
        Body::Service { template, .. } => template,
        _ => unreachable!(),
    }
}

/// Whether the two templates are equal.
pub fn same_template(one: &Template, two: &Template) -> bool
    ensures { result ≡ same_template one.now two.now }
{
    one.equals(two)
}

// The one label of what a Service of the name makes.
fn labels_of(alloc: Global, name: &Name) -> Result<Labels, AllocError>
    ensures { IfOk result (λ labels. labels ≡ one_label service_label name.now.name) }
{
    let mut labels = Table::with_capacity(alloc, 1)?;
    labels.put_named("serving.knative.dev/service", name.name.copy(alloc)?)?;
    Ok(labels)
}

// What both have beside their key and their body.
fn meta_of(alloc: Global, name: &Name, service: &Object) -> Result<Meta, AllocError>
    ensures { IfOk result (λ meta. meta ≡ child_meta name.now service.now) }
{
    let owner = owner_by(alloc, Kind::Service, service)?;
    Ok(Meta {
        stamp: Stamp {
            version: 0,
            generation: 0,
            uid: 0,
            created: 0,
        },
        owner: Some(owner),
        labels: labels_of(alloc, name)?,
        annotations: Table::new(alloc),
    })
}

// A Configuration with the Service's template, and a status.
fn configuration_body(
    alloc: Global,
    template: &Template,
    status: ObjectStatus,
) -> Result<Body, AllocError>
    ensures { IfOk result (λ body. body ≡ Body.Configuration template.now status) }
{
    Ok(Body::Configuration {
        template: template.copy(alloc)?,
        status,
    })
}

// A Route with the Service's targets, and a status.
fn route_body(
    alloc: Global,
    name: &Name,
    service: &Object,
    status: ObjectStatus,
) -> Result<Body, AllocError>
    ensures { IfOk result (λ body. body ≡ Body.Route (converted name.now service.now) status) }
{
    Ok(Body::Route {
        traffic: converted_targets(alloc, name, service.body.targets())?,
        status,
    })
}

/// The Configuration that a Service of the name makes.
pub fn made_configuration(
    alloc: Global,
    name: &Name,
    service: &Object,
) -> Result<Object, AllocError>
    requires { IsOf Kind.Service service.now }
    ensures { IfOk result (λ made. made ≡ made_configuration name.now service.now) }
{
    let key = Key {
        kind: Kind::Configuration,
        name: name.copy(alloc)?,
    };
    let meta = meta_of(alloc, name, service)?;
    let status = ObjectStatus::empty(alloc)?;
    Ok(Object {
        key,
        meta,
        body: configuration_body(alloc, service_template(service), status)?,
    })
}

/// The Route that a Service of the name makes.
pub fn made_route(alloc: Global, name: &Name, service: &Object) -> Result<Object, AllocError>
    ensures { IfOk result (λ made. made ≡ made_route name.now service.now) }
{
    let key = Key {
        kind: Kind::Route,
        name: name.copy(alloc)?,
    };
    let meta = meta_of(alloc, name, service)?;
    let status = ObjectStatus::empty(alloc)?;
    Ok(Object {
        key,
        meta,
        body: route_body(alloc, name, service, status)?,
    })
}

// The body of a Configuration with another template.
fn with_template(alloc: Global, template: &Template, body: &Body) -> Result<Body, AllocError>
    ensures { IfOk result (λ b. b ≡ with_template template.now body.now) }
{
    match body {
        Body::Configuration { status, .. } => {
            configuration_body(alloc, template, status.copy(alloc)?)
        }
        other => other.copy(alloc),
    }
}

// The body of a Route with the targets of the Service of the name.
fn with_targets(
    alloc: Global,
    name: &Name,
    service: &Object,
    body: &Body,
) -> Result<Body, AllocError>
    ensures { IfOk result (λ b. b ≡ with_targets (converted name.now service.now) body.now) }
{
    match body {
        Body::Route { status, .. } => route_body(alloc, name, service, status.copy(alloc)?),
        other => other.copy(alloc),
    }
}

/// The Configuration with the Service's template, and all else as it stands.
pub fn configuration_with_template(
    alloc: Global,
    configuration: &Object,
    service: &Object,
) -> Result<Object, AllocError>
    requires { IsOf Kind.Service service.now }
    ensures { IfOk result (λ o. o ≡ with_body configuration.now (with_template (template_of service.now.body) configuration.now.body)) }
{
    let key = configuration.key.copy(alloc)?;
    let meta = configuration.meta.copy(alloc)?;
    Ok(Object {
        key,
        meta,
        body: with_template(alloc, service_template(service), &configuration.body)?,
    })
}

/// The Route with the targets of the Service of the name, and all else as it stands.
pub fn route_with_targets(
    alloc: Global,
    route: &Object,
    name: &Name,
    service: &Object,
) -> Result<Object, AllocError>
    ensures { IfOk result (λ o. o ≡ with_body route.now (with_targets (converted name.now service.now) route.now.body)) }
{
    let key = route.key.copy(alloc)?;
    let meta = route.meta.copy(alloc)?;
    Ok(Object {
        key,
        meta,
        body: with_targets(alloc, name, service, &route.body)?,
    })
}
