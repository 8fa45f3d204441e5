//! Taking a member out of an object.
ghost use Rattle.std.specs.Prelude.{◌≡◌, position};
ghost use Rattle.std.specs.Str.{bytes_eq};
ghost use Rattle.json_tree.specs.Tree.{data_of, table_data};
ghost use Rattle.merge_patch.specs.Merge.{without, value_or_null};

use json_tree::{Json, Members, Seq, Text};

/// The place of the first member with the name.
fn place_of(entries: &[(Text, Json)], name: &str) -> Option<usize>
    ensures { result ≡ position (λ e. bytes_eq e.0 name.now) entries.now }
{
    entries.iter().position(|entry| entry.0.as_str() == name)
}

/// The members without the first one with the name, and its value, or a null if there is none.
pub(crate) fn take(members: Members, name: &str) -> (Members, Json)
    ensures rest { table_data result.0.entries ≡ without name.now (table_data members.entries) }
    ensures value { data_of result.1 ≡ value_or_null name.now (table_data members.entries) }
{
    match place_of(members.entries(), name) {
        Some(place) => {
            let mut entries = members.entries.into_vec();
            let entry = entries.remove(place);
            let rest = Members {
                entries: Seq::from_vec(entries),
            };
            (rest, entry.1)
        }
        None => (members, Json::Null),
    }
}
