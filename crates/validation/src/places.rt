//! The places of a manifest that rules speak of, the rules, and their texts.
ghost use Rattle.std.specs.Prelude.{◌≡◌, IfOk};
ghost use Rattle.validation.specs.Texts.{text_of_place, text_of_rule, target_place};

use json_tree::Text;
use std::alloc::{AllocError, Global};

/// A place in a manifest, by its path in the JSON form. Containers and targets count from 0.
#[derive(Clone, Copy, Debug, PartialEq, Eq)]
pub enum Place {
    /// `metadata.name`.
    MetadataName,
    /// `spec.template.metadata.name`.
    TemplateName,
    /// `spec.template.spec.containers`.
    Containers,
    /// The `image` of a container.
    Image(u64),
    /// `spec.template.spec.containerConcurrency`.
    ContainerConcurrency,
    /// `spec.template.spec.timeoutSeconds`.
    TimeoutSeconds,
    /// `spec.traffic`.
    Traffic,
    /// A target.
    Target(u64),
    /// The `configurationName` of a target.
    ConfigurationName(u64),
    /// The `latestRevision` of a target.
    LatestRevision(u64),
    /// The `percent` of a target.
    Percent(u64),
    /// The `revisionName` of a target.
    RevisionName(u64),
    /// The `tag` of a target.
    Tag(u64),
}

/// A rule that a manifest with its defaults keeps.
#[derive(Clone, Copy, Debug, PartialEq, Eq)]
pub enum Rule {
    /// The name is a label of at most 42 bytes.
    Name,
    /// A template's name, where given, is a label of at most 63 bytes that begins with the manifest's name and a dash.
    TemplateName,
    /// There are 1 to 16 containers.
    Containers,
    /// A container has an image, a text that isn't empty.
    Image,
    /// At most 1,000 requests at one time.
    Concurrency,
    /// At most 600 seconds.
    Timeout,
    /// There are 1 to 16 targets.
    TargetCount,
    /// A target of a Service names no Configuration.
    Absent,
    /// A target of a Route names one Revision or one Configuration.
    OneName,
    /// A name in a target is a label, of at most 42 bytes for a Configuration and 63 for a Revision.
    Label,
    /// `latestRevision` is true exactly where the target names no Revision.
    Latest,
    /// At most 100 percent.
    Percent,
    /// A tag is a label, and with a dash and the manifest's name behind it has at most 63 bytes.
    Tag,
    /// No earlier target has the same tag.
    TagOnce,
    /// The percents of all targets sum to 100.
    Sum,
}

/// The first rule that a manifest breaks, and where.
#[derive(Clone, Copy, Debug, PartialEq, Eq)]
pub struct Invalid {
    /// Where.
    pub place: Place,
    /// Which rule.
    pub rule: Rule,
}

/// What a rule asks for, as the end of the sentence that begins with the place.
pub fn rule_text(rule: Rule) -> &'static str
    ensures { result.now ≡ text_of_rule rule }
{
    match rule {
        Rule::Name => "must be a DNS label of at most 42 bytes",
        Rule::TemplateName => "must begin with the name and a dash and be a DNS label",
        Rule::Containers => "must be a list of 1 to 16 containers",
        Rule::Image => "must be a text that is not empty",
        Rule::Concurrency => "must be from 0 to 1000",
        Rule::Timeout => "must be from 0 to 600",
        Rule::TargetCount => "must have 1 to 16 targets",
        Rule::Absent => "must be absent",
        Rule::OneName => "must name one revision or one configuration",
        Rule::Label => "must be a DNS label",
        Rule::Latest => "must be true exactly where no revision is named",
        Rule::Percent => "must be from 0 to 100",
        Rule::Tag => "must be a DNS label that fits before the name",
        Rule::TagOnce => "must be used once",
        Rule::Sum => "the percents must sum to 100",
    }
}

/// The path of a place in the JSON form, such as `spec.traffic[2].tag`. Numbers are decimal.
pub fn place_text(alloc: Global, place: Place) -> Result<Text, AllocError>
    ensures { IfOk result (λ text. text ≡ text_of_place place) }
{
    match place {
        Place::MetadataName => Text::new(alloc, "metadata.name"),
        Place::TemplateName => Text::new(alloc, "spec.template.metadata.name"),
        Place::Containers => Text::new(alloc, "spec.template.spec.containers"),
        Place::Image(index) => image_text(alloc, index),
        Place::ContainerConcurrency => Text::new(alloc, "spec.template.spec.containerConcurrency"),
        Place::TimeoutSeconds => Text::new(alloc, "spec.template.spec.timeoutSeconds"),
        Place::Traffic => Text::new(alloc, "spec.traffic"),
        Place::Target(index) => target_text(alloc, index, "]"),
        Place::ConfigurationName(index) => target_text(alloc, index, "].configurationName"),
        Place::LatestRevision(index) => target_text(alloc, index, "].latestRevision"),
        Place::Percent(index) => target_text(alloc, index, "].percent"),
        Place::RevisionName(index) => target_text(alloc, index, "].revisionName"),
        Place::Tag(index) => target_text(alloc, index, "].tag"),
    }
}

fn image_text(alloc: Global, index: u64) -> Result<Text, AllocError>
    ensures { IfOk result (λ text. text ≡ text_of_place (Place.Image index)) }
{
    let path = format!(in alloc; "spec.template.spec.containers[{index}].image")?;
    Ok(Text::from_string(path))
}

fn target_text(alloc: Global, index: u64, end: &str) -> Result<Text, AllocError>
    ensures { IfOk result (λ text. text ≡ target_place index end.now) }
{
    let mut path = format!(in alloc; "spec.traffic[{index}")?;
    path.push_str(end)?;
    Ok(Text::from_string(path))
}
