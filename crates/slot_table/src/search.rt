//! The search for a key among rows in order.
ghost use Rattle.std.specs.Prelude.{◌≡◌, ◌+◌, ◌-◌, ◌<◌, ◌≤◌, length, map};
ghost use Rattle.std.specs.Ordering.{is_lt};
ghost use Rattle.version_store.specs.Index.{AreInOrder, leading, search_in, IsPlaceIn};

use crate::rows::Keyed;

/// How many of the rows have a key less than this one.
fn place_of<R: Keyed>(rows: &[R], key: &R::Key) -> usize
    requires { AreInOrder R.key R.Key.cmp rows.now }
    ensures place { result ≡ leading (λ k. is_lt (R.Key.cmp k key.now)) (map R.key rows.now) }
    ensures within { result ≤ length rows.now }
{
    let mut low = 0;
    let mut high = rows.len();
    while low < high {
        let middle = low + (high - low) / 2;
        if rows[middle].key().cmp(key).is_lt() {
            low = middle + 1;
        } else {
            high = middle;
        }
    }
    low
}

/// The place of the key's row, or the place where it would go.
pub fn search<R: Keyed>(rows: &[R], key: &R::Key) -> Result<usize, usize>
    requires { AreInOrder R.key R.Key.cmp rows.now }
    ensures place { result ≡ search_in R.Key.cmp key.now (map R.key rows.now) }
    ensures within { IsPlaceIn result (length rows.now) }
{
    let place = place_of(rows, key);
    if place < rows.len() && rows[place].key().cmp(key).is_eq() {
        Ok(place)
    } else {
        Err(place)
    }
}
