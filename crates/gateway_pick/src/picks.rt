//! Which row of a host a number picks.
ghost use Rattle.std.specs.Prelude.{◌≡◌};
ghost use Rattle.std.specs.List.{filter};
ghost use Rattle.std.specs.Option.{option_copied};
ghost use Rattle.gateway_pick.specs.Picks as spec;

use crate::tables::Published;
use resource_types::Row;

/// The place of a number: of a hundred numbers one after another each has another place, and they go through the places in steps
/// of 37, so that a row's numbers are spread.
fn place_of(number: u64) -> u64
    ensures { result ≡ spec.place_of number }
{
    37 * (number % 100) % 100
}

fn is_for(host: &[u8], row: &Row) -> bool
    ensures { result ≡ spec.is_for host.now row.now }
{
    row.host.bytes() == host
}

fn has_host(host: &[u8], table: &Published) -> bool
    ensures { result ≡ spec.has_host host.now table.now }
{
    table.rows.as_slice().iter().any(|row| is_for(host, row))
}

/// The first Table that has a row with the host, by its rows.
pub(crate) fn rows_for<'a>(tables: &'a [Published], host: &[u8]) -> &'a [Row]
    ensures { result.now ≡ spec.rows_for host.now tables.entry.now }
{
    for table in tables {
        if has_host(host, table) {
            return table.rows.as_slice();
        }
    }
    &[]
}

/// The row with the host to which the place belongs. The first row has the first places, as many as its percent; the next one has those
/// behind them, and so on.
fn row_at<'a>(rows: &'a [Row], host: &[u8], place: u64) -> Option<&'a Row>
    ensures { option_copied result ≡ spec.row_at place (filter (spec.is_for host.now) rows.entry.now) }
{
    let mut rest = place;
    for row in rows {
        if is_for(host, row) {
            if rest < row.percent {
                return Some(row);
            }
            rest -= row.percent;
        }
    }
    None
}

/// The row that a number picks among the rows of a Table, if one has the host.
pub fn pick_among<'a>(rows: &'a [Row], host: &[u8], number: u64) -> Option<&'a Row>
    ensures { option_copied result ≡ spec.pick_among rows.entry.now host.now number }
{
    row_at(rows, host, place_of(number))
}
