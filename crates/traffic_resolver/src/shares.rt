//! The rows of a Route's own host: one for each Revision, with the sum of its percents.
ghost use Rattle.std.specs.Prelude.{◌≡◌, ◌+◌, ◌≤◌, ◌<◌, ◌^◌, ◌==◌, [], not, filter, bytes_eq, length, position, sum_by, IfOk};
ghost use Rattle.std.specs.List.{zip};
ghost use Rattle.control_rules.specs.Resolution.{percent_of, meaning, add_share, with_meant, meant_of, shares_from, default_rows};
ghost use Rattle.traffic_resolver.specs.Pairs.{pair_percent};

use control_rules::Found;
use json_tree::{Seq, Text};
use resource_types::{Row, Target};
use std::alloc::{AllocError, Global};

// The place of the Revision's row.
fn place_of(rows: &[Row], name: &Text) -> Option<usize>
    ensures { result ≡ position (λ row. bytes_eq row.revision name.now) rows.now }
{
    rows.iter().position(|row| row.revision == *name)
}

// The rows with the target's percent in the row of its Revision, which comes last where there was none.
fn add_share(
    alloc: Global,
    host: &Text,
    target: &Target,
    name: &Text,
    uid: u64,
    mut rows: Vec<Row>,
) -> Result<Vec<Row>, AllocError>
    requires { sum_by (λ row. row.percent) rows.items + percent_of target.now < 2 ^ 64 }
    ensures { IfOk result (λ after.
        after.items ≡ add_share host.now (meaning target.now name.now uid) rows.items) }
{
    let percent = target.percent.unwrap_or(0);
    match place_of(&rows, name) {
        Some(place) => {
            rows[place].percent += percent;
            Ok(rows)
        }
        None => {
            rows.push(Row {
                tag: Text::new(alloc, "")?,
                host: host.copy(alloc)?,
                revision: name.copy(alloc)?,
                uid,
                percent,
            })?;
            Ok(rows)
        }
    }
}

// The rows with the share of the target, where it is ready.
fn share(
    alloc: Global,
    host: &Text,
    target: &Target,
    found: &Found,
    rows: Vec<Row>,
) -> Result<Vec<Row>, AllocError>
    requires { sum_by (λ row. row.percent) rows.items + percent_of target.now < 2 ^ 64 }
    ensures rows { IfOk result (λ after.
        after.items ≡ shares_from host.now rows.items (with_meant target.now found.now [])) }
    ensures sum { IfOk result (λ after.
        sum_by (λ row. row.percent) after.items
        ≤ sum_by (λ row. row.percent) rows.items + percent_of target.now) }
{
    match found {
        Found::Ready { name, uid } => {
            let after = add_share(alloc, host, target, name, *uid, rows)?;
            Ok(after)
        }
        _ => Ok(rows),
    }
}

// The shares of all targets that are ready, with those of 0.
fn shares(
    alloc: Global,
    host: &Text,
    targets: &[Target],
    found: &[Found],
) -> Result<Vec<Row>, AllocError>
    requires long { length found.now ≡ length targets.now }
    requires room { sum_by pair_percent (zip targets.now found.now) < 2 ^ 64 }
    ensures { IfOk result (λ rows.
        rows.items ≡ shares_from host.now [] (meant_of (zip targets.now found.now))) }
{
    let mut rows = Vec::new(alloc);
    for place in 0..targets.len() {
        rows = share(alloc, host, &targets[place], &found[place], rows)?;
    }
    Ok(rows)
}

// The rows without sums of 0.
fn drop_zeros(mut rows: Vec<Row>) -> Vec<Row>
    ensures { result.items ≡ filter (λ row. not (row.percent == 0)) rows.items }
{
    rows.retain(|row| row.percent != 0);
    rows
}

/// One row per Revision in order of first appearance, with the sum of its percents, without sums of 0.
pub fn own_rows(
    alloc: Global,
    host: &Text,
    targets: &[Target],
    found: &[Found],
) -> Result<Seq<Row>, AllocError>
    requires long { length found.now ≡ length targets.now }
    requires room { sum_by pair_percent (zip targets.now found.now) < 2 ^ 64 }
    ensures { IfOk result (λ rows.
        rows ≡ default_rows host.now (meant_of (zip targets.now found.now))) }
{
    let rows = shares(alloc, host, targets, found)?;
    Ok(Seq::from_vec(drop_zeros(rows)))
}
