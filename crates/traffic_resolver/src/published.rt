//! What is published for a Route whose targets are all ready.
ghost use Rattle.std.specs.Prelude.{◌≡◌, ◌<◌, ◌^◌, ◌++◌, [], length, sum_by, IfOk};
ghost use Rattle.std.specs.List.{zip};
ghost use Rattle.control_rules.specs.Resolution.{meaning, meant_of, with_meant, tagged_rows, row_of, host_of, published_target, assigned_rows, assigned_targets};
ghost use Rattle.traffic_resolver.specs.Pairs.{pair_percent};

use crate::hosts::{host_of, tag_address};
use crate::shares::own_rows;
use control_rules::Found;
use controller_parts::is_blank;
use json_tree::{Seq, Text};
use resource_types::{Name, Row, Target};
use std::alloc::{AllocError, Global};

// The row of a tag.
fn tagged_row(
    alloc: Global,
    route: &Name,
    domain: &Text,
    target: &Target,
    name: &Text,
    uid: u64,
) -> Result<Row, AllocError>
    ensures { IfOk result (λ row.
        row
        ≡ row_of target.now.tag (host_of target.now.tag route.now domain.now) 100 (meaning target.now name.now uid)) }
{
    Ok(Row {
        tag: target.tag.copy(alloc)?,
        host: host_of(alloc, &target.tag, &route.name, &route.space, domain)?,
        revision: name.copy(alloc)?,
        uid,
        percent: 100,
    })
}

// The rows with that of the target, where it is ready and has a tag.
fn with_tagged(
    alloc: Global,
    route: &Name,
    domain: &Text,
    target: &Target,
    found: &Found,
    mut rows: Seq<Row>,
) -> Result<Seq<Row>, AllocError>
    ensures { IfOk result (λ after.
        after ≡ rows ++ tagged_rows route.now domain.now (with_meant target.now found.now [])) }
{
    match found {
        Found::Ready { name, uid } => {
            if is_blank(&target.tag) {
                return Ok(rows);
            }
            rows.push(tagged_row(alloc, route, domain, target, name, *uid)?)?;
            Ok(rows)
        }
        _ => Ok(rows),
    }
}

// The rows, with those of tags behind them.
fn all_tagged(
    alloc: Global,
    route: &Name,
    domain: &Text,
    targets: &[Target],
    found: &[Found],
    own: Seq<Row>,
) -> Result<Seq<Row>, AllocError>
    requires { length found.now ≡ length targets.now }
    ensures { IfOk result (λ rows.
        rows ≡ own ++ tagged_rows route.now domain.now (meant_of (zip targets.now found.now))) }
{
    let mut rows = own;
    for place in 0..targets.len() {
        rows = with_tagged(alloc, route, domain, &targets[place], &found[place], rows)?;
    }
    Ok(rows)
}

/// The rows: those of the Route's own host, and then one of 100 per target with a tag.
#[tactic(auto, unfolding(control_rules::specs::Resolution::assigned_rows))]
pub fn all_rows(
    alloc: Global,
    route: &Name,
    domain: &Text,
    targets: &[Target],
    found: &[Found],
) -> Result<Seq<Row>, AllocError>
    requires long { length found.now ≡ length targets.now }
    requires room { sum_by pair_percent (zip targets.now found.now) < 2 ^ 64 }
    ensures { IfOk result (λ rows.
        rows ≡ assigned_rows route.now domain.now (meant_of (zip targets.now found.now))) }
{
    let tag = Text::new(alloc, "")?;
    let host = host_of(alloc, &tag, &route.name, &route.space, domain)?;
    let own = own_rows(alloc, &host, targets, found)?;
    all_tagged(alloc, route, domain, targets, found, own)
}

// The target that is published.
fn published_target(
    alloc: Global,
    route: &Name,
    domain: &Text,
    target: &Target,
    name: &Text,
    uid: u64,
) -> Result<Target, AllocError>
    ensures { IfOk result (λ published.
        published ≡ published_target route.now domain.now (meaning target.now name.now uid)) }
{
    Ok(Target {
        configuration: Text::new(alloc, "")?,
        revision: name.copy(alloc)?,
        latest: target.latest,
        percent: target.percent,
        tag: target.tag.copy(alloc)?,
        url: tag_address(alloc, &target.tag, route, domain)?,
    })
}

// The targets with that one, where it is ready.
fn with_published(
    alloc: Global,
    route: &Name,
    domain: &Text,
    target: &Target,
    found: &Found,
    mut targets: Seq<Target>,
) -> Result<Seq<Target>, AllocError>
    ensures { IfOk result (λ after.
        after
        ≡ targets ++ assigned_targets route.now domain.now (with_meant target.now found.now [])) }
{
    match found {
        Found::Ready { name, uid } => {
            targets.push(published_target(alloc, route, domain, target, name, *uid)?)?;
            Ok(targets)
        }
        _ => Ok(targets),
    }
}

/// The targets that are published: each that is ready, with the name of its Revision and the address of its tag.
pub fn all_published(
    alloc: Global,
    route: &Name,
    domain: &Text,
    targets: &[Target],
    found: &[Found],
) -> Result<Seq<Target>, AllocError>
    requires { length found.now ≡ length targets.now }
    ensures { IfOk result (λ published.
        published ≡ assigned_targets route.now domain.now (meant_of (zip targets.now found.now))) }
{
    let mut published = Seq::new(alloc);
    for place in 0..targets.len() {
        published = with_published(
            alloc,
            route,
            domain,
            &targets[place],
            &found[place],
            published,
        )?;
    }
    Ok(published)
}
