//! The fields of a manifest, their paths, and why a value is no manifest.
ghost use Rattle.std.specs.Prelude.{◌≡◌, IfOk};
ghost use Rattle.resource_codec.specs.Paths.{path_bytes};

use json_tree::Text;
use std::alloc::{AllocError, Global};

/// A field of a target.
#[derive(Clone, Copy, Debug, Drop, PartialEq, Eq)]
pub enum TargetField {
    /// The target itself.
    Whole,
    /// `configurationName`.
    ConfigurationName,
    /// `latestRevision`.
    LatestRevision,
    /// `percent`.
    Percent,
    /// `revisionName`.
    RevisionName,
    /// `tag`.
    Tag,
}

/// A field of a manifest, in the order in which fields are examined. [`path_text`] gives its path.
#[derive(Clone, Copy, Debug, Drop, PartialEq, Eq)]
pub enum Field {
    /// The manifest itself, whose path is `body`.
    Body,
    /// `apiVersion`.
    ApiVersion,
    /// `kind`.
    Kind,
    /// `metadata`.
    Metadata,
    /// `metadata.name`.
    Name,
    /// `metadata.namespace`.
    Namespace,
    /// `metadata.resourceVersion`.
    ResourceVersion,
    /// `metadata.labels`.
    Labels,
    /// `metadata.annotations`.
    Annotations,
    /// `spec`.
    Spec,
    /// `spec.template`.
    Template,
    /// `spec.template.metadata`.
    TemplateMetadata,
    /// `spec.template.metadata.name`.
    TemplateName,
    /// `spec.template.metadata.labels`.
    TemplateLabels,
    /// `spec.template.metadata.annotations`.
    TemplateAnnotations,
    /// `spec.template.spec`.
    TemplateSpec,
    /// `spec.template.spec.containerConcurrency`.
    Concurrency,
    /// `spec.template.spec.timeoutSeconds`.
    Timeout,
    /// `spec.traffic`.
    Traffic,
    /// A field of the target at a place in `spec.traffic`, counted from 0, as `spec.traffic[0].tag`.
    Target(u64, TargetField),
}

/// Why a value gives no manifest.
#[derive(Debug, Drop, PartialEq)]
pub enum DecodeError {
    /// The value has not the shape of a manifest: this is the first field, in their order, that is wrong.
    Shape(Field),
    /// Memory is wanting.
    Memory,
}

impl From<AllocError> for DecodeError {
    ghost use Rattle.std.specs.Prelude.{◌≡◌};
    ghost use Rattle.resource_codec.specs.declared.fields.DecodeError.TheVariants.{Memory};

    ghost from_gives = { λ _ e. e ≡ Memory };

    fn from(_e: AllocError) -> DecodeError {
        DecodeError::Memory
    }
}

/// The path of a field, as messages give it.
pub fn path_text(alloc: Global, field: Field) -> Result<Text, AllocError>
    ensures { IfOk result (λ path. path ≡ path_bytes field) }
{
    let path = match field {
        Field::Body => "body",
        Field::ApiVersion => "apiVersion",
        Field::Kind => "kind",
        Field::Metadata => "metadata",
        Field::Name => "metadata.name",
        Field::Namespace => "metadata.namespace",
        Field::ResourceVersion => "metadata.resourceVersion",
        Field::Labels => "metadata.labels",
        Field::Annotations => "metadata.annotations",
        Field::Spec => "spec",
        Field::Template => "spec.template",
        Field::TemplateMetadata => "spec.template.metadata",
        Field::TemplateName => "spec.template.metadata.name",
        Field::TemplateLabels => "spec.template.metadata.labels",
        Field::TemplateAnnotations => "spec.template.metadata.annotations",
        Field::TemplateSpec => "spec.template.spec",
        Field::Concurrency => "spec.template.spec.containerConcurrency",
        Field::Timeout => "spec.template.spec.timeoutSeconds",
        Field::Traffic => "spec.traffic",
        Field::Target(place, part) => return target_text(alloc, place, part),
    };
    Text::new(alloc, path)
}

fn target_text(alloc: Global, place: u64, part: TargetField) -> Result<Text, AllocError>
    ensures { IfOk result (λ path. path ≡ path_bytes (Field.Target place part)) }
{
    let end = match part {
        TargetField::Whole => "]",
        TargetField::ConfigurationName => "].configurationName",
        TargetField::LatestRevision => "].latestRevision",
        TargetField::Percent => "].percent",
        TargetField::RevisionName => "].revisionName",
        TargetField::Tag => "].tag",
    };
    let mut path = format!(in alloc; "spec.traffic[{place}")?;
    path.push_str(end)?;
    Ok(Text::from_string(path))
}
