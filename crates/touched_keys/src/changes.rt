//! What stood under the key of an entry before it.
ghost use Rattle.std.specs.Prelude.{◌≡◌, ◌<◌, length, slice_get, Some};
ghost use Rattle.std.specs.Option.{option_copied};
ghost use Rattle.touched_keys.specs.Places.{object_before};

use resource_types::Object;
use version_store::{Entry, Store};

/// The entry at a place, counted from 0.
pub fn entry_at<'a>(store: &'a Store<Object>, place: usize) -> &'a Entry<Object>
    requires { place < length store.now.entries }
    ensures { slice_get store.now.entries place ≡ Some result.now }
{
    &store.entries()[place]
}

/// The object that stood under the key of an entry before it.
#[tactic(auto, unfolding(crate::specs::Places::object_before))]
pub fn object_before<'a>(store: &'a Store<Object>, place: usize) -> Option<&'a Object>
    requires { place < length store.now.entries }
    ensures { option_copied result ≡ object_before store.now.entries place }
{
    store.replaced(place)
}
