//! The rules of targets.
ghost use Rattle.std.specs.Prelude.{◌≡◌, ◌==◌, [], sum_by};
ghost use Rattle.std.specs.List.{list_any};
ghost use Rattle.validation.specs.Rules.{first_fault, verdict_of, traffic_lines, each_target_lines, target_lines, naming_line, has_tag, percent_of, is_latest_as_named, is_absent_or_label, is_tag_before};

use crate::emptiness::is_empty;
use crate::places::{Invalid, Place, Rule};
use crate::rules::LONGEST_NAME;
use crate::templates::LONGEST_REVISION;
use crate::verdict::keep;
use json_tree::Text;
use resource_types::{ClientKind, Target};
use serve_names::is_label;

/// The longest label of a host, in bytes.
const LONGEST_HOST_LABEL: usize = 63;

#[tactic(auto, unfolding(crate::specs::Rules::traffic_lines), using(crate::proofs::Steps::fault_of_both))]
pub(crate) fn check_traffic(
    kind: ClientKind,
    name: &Text,
    targets: &[Target],
) -> Result<(), Invalid>
    ensures { result ≡ first_fault (traffic_lines kind name.now targets.now) }
{
    let fits = targets.len() >= 1 && targets.len() <= 16;
    keep(Place::Traffic, Rule::TargetCount, fits)?;
    check_each_target(kind, name, targets)?;
    keep(Place::Traffic, Rule::Sum, sums_to_hundred(targets))
}

fn check_each_target(kind: ClientKind, name: &Text, targets: &[Target]) -> Result<(), Invalid>
    ensures { result ≡ first_fault (each_target_lines kind name.now [] targets.now) }
{
    for index in 0..targets.len() {
        check_target(kind, name, &targets[..index], index as u64, &targets[index])?;
    }
    Ok(())
}

#[tactic(auto, unfolding(crate::specs::Rules::target_lines))]
fn check_target(
    kind: ClientKind,
    name: &Text,
    earlier: &[Target],
    index: u64,
    target: &Target,
) -> Result<(), Invalid>
    ensures { result ≡ first_fault (target_lines kind name.now earlier.now index target.now) }
{
    check_naming(kind, index, target)?;
    let is_label = is_absent_or_label(&target.configuration, LONGEST_NAME);
    keep(Place::ConfigurationName(index), Rule::Label, is_label)?;
    let is_label = is_absent_or_label(&target.revision, LONGEST_REVISION);
    keep(Place::RevisionName(index), Rule::Label, is_label)?;
    let agrees = is_latest_as_named(target);
    keep(Place::LatestRevision(index), Rule::Latest, agrees)?;
    let fits = target.percent.unwrap_or(0) <= 100;
    keep(Place::Percent(index), Rule::Percent, fits)?;
    let is_tag = is_empty(&target.tag) || is_tag_before(name, &target.tag);
    keep(Place::Tag(index), Rule::Tag, is_tag)?;
    let is_new = is_empty(&target.tag) || !is_taken(earlier, &target.tag);
    keep(Place::Tag(index), Rule::TagOnce, is_new)
}

// A Service's targets name no Configuration; a Route's name one Revision or one Configuration.
fn check_naming(kind: ClientKind, index: u64, target: &Target) -> Result<(), Invalid>
    ensures { result ≡ verdict_of (naming_line kind index target.now) }
{
    let has_no_configuration = is_empty(&target.configuration);
    match kind {
        ClientKind::Service => keep(
            Place::ConfigurationName(index),
            Rule::Absent,
            has_no_configuration,
        ),
        _ => keep(
            Place::Target(index),
            Rule::OneName,
            has_no_configuration != is_empty(&target.revision),
        ),
    }
}

// Whether `latestRevision` is true exactly where no Revision is named.
fn is_latest_as_named(target: &Target) -> bool
    ensures { result ≡ is_latest_as_named target.now }
{
    target.latest.unwrap_or(false) == is_empty(&target.revision)
}

fn is_absent_or_label(text: &Text, longest: u64) -> bool
    ensures { result ≡ is_absent_or_label text.now longest }
{
    is_empty(text) || is_label(text.bytes(), longest)
}

// A host with a tag begins with the tag, a dash and the name, as one label.
fn is_tag_before(name: &Text, tag: &Text) -> bool
    ensures { result ≡ is_tag_before name.now tag.now }
{
    is_label(tag.bytes(), 63)
        && name.bytes().len() < LONGEST_HOST_LABEL
        && tag.bytes().len() + 1 + name.bytes().len() <= LONGEST_HOST_LABEL
}

fn is_taken(earlier: &[Target], tag: &Text) -> bool
    ensures { result ≡ list_any (has_tag tag.now) earlier.now }
{
    for target in earlier {
        if target.tag.as_str() == tag.as_str() {
            return true;
        }
    }
    false
}

fn sums_to_hundred(targets: &[Target]) -> bool
    ensures { result ≡ (sum_by percent_of targets.now == 100) }
{
    let mut total: u64 = 0;
    for target in targets {
        total = total.saturating_add(target.percent.unwrap_or(0));
    }
    total == 100
}
