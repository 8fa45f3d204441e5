//! The Revisions of a Configuration.
ghost use Rattle.std.specs.Prelude.{◌≡◌, bytes_eq, IfOk};
ghost use Rattle.resource_types.specs.Objects.{IsOf};
ghost use Rattle.control_rules.specs.Standing.{listed};
ghost use Rattle.control_rules.specs.NextConfiguration.{shown_names, without_shown, with_service, with_owner, revision_labels, revision_annotations, made_revision};
ghost use Rattle.control_rules.specs.Readings.{simple_revision_name, revision_name};
ghost use Rattle.configuration_rec.specs.Revisions.{made_meta, made_body, own_labels};

use controller_parts::{owner_by, template_of};
use json_tree::{Copied, Seq, Table, Text};
use resource_types::{
    Body, Key, Kind, Labels, Meta, Name, Object, ObjectStatus, Owner, decimal_text,
};
use serve_names::generated_name;
use std::alloc::{AllocError, Global};
use version_store::Stamp;

// The simple name of the Configuration's Revision: the template's, or else the generated one.
fn simple_name(alloc: Global, configuration: &Object) -> Result<Text, AllocError>
    requires { IsOf Kind.Configuration configuration.now }
    ensures { IfOk result (λ name. name ≡ simple_revision_name configuration.now) }
{
    let template = template_of(configuration);
    if template.name.is_empty() {
        generated_name(
            alloc,
            &configuration.key.name.name,
            configuration.meta.stamp.generation,
        )
    } else {
        template.name.copy(alloc)
    }
}

/// The name of the Configuration's Revision.
#[tactic(auto, unfolding(control_rules::specs::Readings::revision_name))]
pub fn revision_name(alloc: Global, configuration: &Object) -> Result<Name, AllocError>
    requires { IsOf Kind.Configuration configuration.now }
    ensures { IfOk result (λ name. name ≡ revision_name configuration.now) }
{
    Ok(Name {
        space: configuration.key.name.space.copy(alloc)?,
        name: simple_name(alloc, configuration)?,
    })
}

// Whether the text is the word.
fn is_word(text: &Text, word: &str) -> bool
    ensures { result ≡ bytes_eq text.now word.now }
{
    text.as_str() == word
}

// Whether the name is shown of a Revision's pins.
#[tactic(auto, unfolding(control_rules::specs::Standing::listed))]
fn is_shown(name: &Text) -> bool
    ensures { result ≡ listed name.now shown_names }
{
    if is_word(name, "serving.knative.dev/routingState") {
        return true;
    }
    if is_word(name, "serving.knative.dev/routingStateModified") {
        return true;
    }
    is_word(name, "serving.knative.dev/routes")
}

// Labels or annotations without the names that are shown.
fn without_shown(alloc: Global, labels: &Labels) -> Result<Labels, AllocError>
    ensures { IfOk result (λ kept. kept.entries ≡ without_shown labels.now.entries) }
{
    let mut kept = Table::with_capacity(alloc, labels.len())?;
    for entry in labels.entries() {
        if !is_shown(&entry.0) {
            kept.add(entry.0.copy(alloc)?, entry.1.copy(alloc)?)?;
        }
    }
    Ok(kept)
}

// The labels with the name of the Service, where the owner is one.
fn with_service(
    alloc: Global,
    kind: Kind,
    name: &Text,
    mut labels: Labels,
) -> Result<Labels, AllocError>
    ensures { IfOk result (λ done. done.entries ≡ with_service kind name.now labels.entries) }
{
    match kind {
        Kind::Service => {
            labels.put_named("serving.knative.dev/service", name.copy(alloc)?)?;
            Ok(labels)
        }
        _ => Ok(labels),
    }
}

// The same by the owner, if there is one.
fn with_owner(alloc: Global, owner: &Option<Owner>, labels: Labels) -> Result<Labels, AllocError>
    ensures { IfOk result (λ done. done.entries ≡ with_owner owner.now labels.entries) }
{
    match owner {
        Some(owner) => with_service(alloc, owner.kind, &owner.name, labels),
        None => Ok(labels),
    }
}

// The template's labels, with the Configuration and its generation.
fn own_labels(alloc: Global, configuration: &Object) -> Result<Labels, AllocError>
    requires { IsOf Kind.Configuration configuration.now }
    ensures { IfOk result (λ labels. labels.entries ≡ own_labels configuration.now) }
{
    let mut labels = without_shown(alloc, &template_of(configuration).labels)?;
    labels.put_named(
        "serving.knative.dev/configuration",
        configuration.key.name.name.copy(alloc)?,
    )?;
    labels.put_named(
        "serving.knative.dev/configurationGeneration",
        decimal_text(alloc, configuration.meta.stamp.generation)?,
    )?;
    Ok(labels)
}

// The labels of the Configuration's Revision.
#[tactic(auto, unfolding(control_rules::specs::NextConfiguration::revision_labels))]
fn labels_of(alloc: Global, configuration: &Object) -> Result<Labels, AllocError>
    requires { IsOf Kind.Configuration configuration.now }
    ensures { IfOk result (λ labels. labels ≡ revision_labels configuration.now) }
{
    let labels = own_labels(alloc, configuration)?;
    with_owner(alloc, &configuration.meta.owner, labels)
}

// The annotations of the Configuration's Revision.
#[tactic(auto, unfolding(control_rules::specs::NextConfiguration::revision_annotations))]
fn annotations_of(alloc: Global, configuration: &Object) -> Result<Labels, AllocError>
    requires { IsOf Kind.Configuration configuration.now }
    ensures { IfOk result (λ labels. labels ≡ revision_annotations configuration.now) }
{
    without_shown(alloc, &template_of(configuration).annotations)
}

// What the Configuration's Revision has beside its key and its body.
fn meta_of(alloc: Global, configuration: &Object) -> Result<Meta, AllocError>
    requires { IsOf Kind.Configuration configuration.now }
    ensures { IfOk result (λ meta. meta ≡ made_meta configuration.now) }
{
    let owner = owner_by(alloc, Kind::Configuration, configuration)?;
    let labels = labels_of(alloc, configuration)?;
    Ok(Meta {
        stamp: Stamp {
            version: 0,
            generation: 0,
            uid: 0,
            created: 0,
        },
        owner: Some(owner),
        labels,
        annotations: annotations_of(alloc, configuration)?,
    })
}

// The body of the Configuration's Revision.
fn body_of(alloc: Global, configuration: &Object) -> Result<Body, AllocError>
    requires { IsOf Kind.Configuration configuration.now }
    ensures { IfOk result (λ body. body ≡ made_body configuration.now) }
{
    let status = ObjectStatus::empty(alloc)?;
    Ok(Body::Revision {
        spec: template_of(configuration).spec.copy(alloc)?,
        generation: configuration.meta.stamp.generation,
        pins: Seq::new(alloc),
        active: None,
        status,
    })
}

/// The Revision that a Configuration makes.
pub fn made_revision(alloc: Global, configuration: &Object) -> Result<Object, AllocError>
    requires { IsOf Kind.Configuration configuration.now }
    ensures { IfOk result (λ revision. revision ≡ made_revision configuration.now) }
{
    let name = revision_name(alloc, configuration)?;
    let meta = meta_of(alloc, configuration)?;
    Ok(Object {
        key: Key {
            kind: Kind::Revision,
            name,
        },
        meta,
        body: body_of(alloc, configuration)?,
    })
}
