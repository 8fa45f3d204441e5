//! Places of names among pairs of a name and a value.
ghost use Rattle.std.specs.Prelude.{◌≡◌, ◌≤◌, IsTrue, IsFalse, length, take, drop};
ghost use Rattle.json_tree.specs.Tree.{is_after_all, names_of};
ghost use Rattle.object_writer.specs.Places.{begins_before, entries_behind};

use json_tree::Text;

/// How many of the first pairs come before the name.
pub fn place_before<T>(entries: &[(Text, T)], name: &str) -> usize
    ensures within { result ≤ length entries.now }
    ensures before { IsTrue (is_after_all name.now (names_of (take result entries.now))) }
    ensures behind { IsFalse (begins_before name.now (drop result entries.now)) }
{
    'places: for place in 0..entries.len() {
        if entries[place].0.as_str() >= name {
            return place;
        }
    }
    entries.len()
}

/// The pairs without the first one, if that has the name.
pub fn entries_behind<'a, T>(entries: &'a [(Text, T)], name: &str) -> &'a [(Text, T)]
    ensures { result.now ≡ entries_behind name.now entries.now }
{
    if !entries.is_empty() && entries[0].0.as_str() == name {
        &entries[1..]
    } else {
        entries
    }
}
