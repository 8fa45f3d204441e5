//! What the rows of a Table must be.
ghost use Rattle.std.specs.Prelude.{◌≡◌, ◌==◌};
ghost use Rattle.std.specs.List.{list_all, sum_by};
ghost use Rattle.gateway_pick.specs.Rules as spec;

use resource_types::Row;

/// The percents of the rows of one host, together.
const WHOLE: u64 = 100;

fn has_no_tag(row: &Row) -> bool
    ensures { result ≡ spec.has_no_tag row.now }
{
    row.tag.is_empty()
}

/// Whether a row has a percent that a row may have: a row with a tag has all of them.
fn has_good_percent(row: &Row) -> bool
    ensures { result ≡ spec.has_good_percent row.now }
{
    row.percent >= 1 && row.percent <= WHOLE && (has_no_tag(row) || row.percent == WHOLE)
}

/// Whether two rows may stand in one Table.
fn agree(one: &Row, other: &Row) -> bool
    ensures { result ≡ spec.agree one.now other.now }
{
    if has_no_tag(one) && has_no_tag(other) {
        one.host == other.host && one.revision != other.revision
    } else {
        one.tag != other.tag && one.host != other.host
    }
}

fn agrees_with_all(row: &Row, others: &[Row]) -> bool
    ensures { result ≡ list_all (spec.agree row.now) others.now }
{
    others.iter().all(|other| agree(row, other))
}

fn all_agree(rows: &[Row]) -> bool
    ensures { result ≡ spec.all_agree rows.now }
{
    for place in 0..rows.len() {
        if !agrees_with_all(&rows[place], &rows[place + 1..]) {
            return false;
        }
    }
    true
}

fn have_good_percents(rows: &[Row]) -> bool
    ensures { result ≡ list_all spec.has_good_percent rows.now }
{
    rows.iter().all(has_good_percent)
}

/// Whether the rows without tag have all percents together.
fn sum_to_whole(rows: &[Row]) -> bool
    ensures { result ≡ (sum_by spec.percent_without_tag rows.now == 100) }
{
    let mut rest = WHOLE;
    for row in rows {
        if has_no_tag(row) {
            if row.percent > rest {
                return false;
            }
            rest -= row.percent;
        }
    }
    rest == 0
}

/// Whether the rows are those of a Table.
pub(crate) fn are_rows(rows: &[Row]) -> bool
    ensures { result ≡ spec.are_rows rows.now }
{
    have_good_percents(rows) && sum_to_whole(rows) && all_agree(rows)
}
