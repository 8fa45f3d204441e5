//! Lists of what stands.
ghost use Rattle.std.specs.Prelude.{◌≡◌, ◌≢◌, ◌≤◌, IsTrue, IfOk, map};
ghost use Rattle.std.specs.Option.{option_copied};
ghost use Rattle.json_tree.specs.Tree.{is_well_formed, depth_of};
ghost use Rattle.resource_codec.specs.Objects.{encoded};
ghost use Rattle.resource_codec.specs.Views.{objects_asked, list_of, AreShown};

use crate::lists::list_json;
use crate::objects::encode;
use json_tree::{Json, Seq, Text};
use resource_types::{Kind, Object, walk_space};
use std::alloc::{AllocError, Global};
use version_store::{Store, Walk};

/// The list of a kind: the objects of the kind that stand, and in the namespace where one is given, in order of name.
///
/// Its version is the journal's length, from which a poll goes on.
pub fn list_of(
    alloc: Global,
    store: &Store<Object>,
    kind: Kind,
    space: Option<&Text>,
) -> Result<Json, AllocError>
    requires kind { kind ≢ Kind.Health }
    ensures list { IfOk result (λ j. j ≡ list_of store.now.entries kind (option_copied space.entry)) }
    ensures well { AreShown store.now.entries → IfOk result (λ j. IsTrue (is_well_formed j) × (depth_of j ≤ 42)) }
{
    let items = items_of(alloc, store, kind, space)?;
    list_json(alloc, kind, items, store.version())
}

// The forms of the objects that are asked for. A namespace is found by a search, and no other one is read.
fn items_of(
    alloc: Global,
    store: &Store<Object>,
    kind: Kind,
    space: Option<&Text>,
) -> Result<Seq<Json>, AllocError>
    ensures { IfOk result (λ js. js ≡ map encoded (objects_asked store.now.entries kind (option_copied space.entry))) }
{
    match space {
        Some(space) => forms_of(alloc, &walk_space(store, kind, space.as_str())),
        None => forms_of(alloc, &store.walk(kind)),
    }
}

// The forms of the objects of a walk.
fn forms_of(alloc: Global, objects: &Walk<'_, Object>) -> Result<Seq<Json>, AllocError>
    ensures { IfOk result (λ js. js ≡ map encoded objects.now) }
{
    let mut items = Seq::new(alloc);
    for place in 0..objects.len() {
        items.push(encode(alloc, objects.at(place))?)?;
    }
    Ok(items)
}
