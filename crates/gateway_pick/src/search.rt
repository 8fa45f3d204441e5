//! The search for a name among Tables in order.
ghost use Rattle.std.specs.Prelude.{◌≡◌, length, map};
ghost use Rattle.version_store.specs.Index.{search_in, IsPlaceIn};
ghost use Rattle.gateway_pick.specs.Tables.{name_cmp, name_of};

use crate::tables::Published;
use resource_types::Name;
use std::cmp::Ordering;

/// The place of the Table of a name, or the place where it would go.
pub(crate) fn search(tables: &[Published], name: &Name) -> Result<usize, usize>
    ensures place { result ≡ search_in name_cmp name.now (map name_of tables.now) }
    ensures within { IsPlaceIn result (length tables.now) }
{
    for place in 0..tables.len() {
        match tables[place].name.cmp(name) {
            Ordering::Less => {}
            Ordering::Equal => return Ok(place),
            Ordering::Greater => return Err(place),
        }
    }
    Err(tables.len())
}
