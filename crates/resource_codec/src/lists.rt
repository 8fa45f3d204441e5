//! The forms of lists.
ghost use Rattle.std.specs.Prelude.{◌≡◌, ◌≤◌, ◌++◌, IsTrue, IfOk, codes};
ghost use Rattle.resource_types.specs.Manifests.{kind_word};
ghost use Rattle.serde_json.specs.Data.{items_depth};
ghost use Rattle.json_tree.specs.Tree.{is_well_formed, depth_of, items_data, items_are_well};
ghost use Rattle.resource_codec.specs.Written.{object_of};
ghost use Rattle.resource_codec.specs.Lists.{list_metadata, object_list, table_list, list_members};

use crate::adding::{add, add_made, add_word};
use json_tree::{Json, Members, Seq, Text};
use resource_types::{Kind, api_version, decimal_text};
use std::alloc::{AllocError, Global};

/// A list of objects of a kind: their forms, in order of name, and the version of the journal that the list is of.
///
/// The list of Tables has a form of its own, without the API's version.
pub fn list_json(
    alloc: Global,
    kind: Kind,
    items: Seq<Json>,
    version: u64,
) -> Result<Json, AllocError>
    ensures form { IfOk result (λ j. j ≡ object_of (list_members kind items version)) }
    ensures well { IsTrue (items_are_well (items_data items)) → items_depth (items_data items) ≤ 40
        → IfOk result (λ j. IsTrue (is_well_formed j) × (depth_of j ≤ 42)) }
{
    Ok(Json::Obj(list_members(alloc, kind, items, version)?))
}

fn list_members(
    alloc: Global,
    kind: Kind,
    items: Seq<Json>,
    version: u64,
) -> Result<Members, AllocError>
    ensures { IfOk result (λ m. m.entries ≡ list_members kind items version) }
{
    if kind == Kind::Table {
        table_list(alloc, items, version)
    } else {
        object_list(alloc, kind, items, version)
    }
}

fn table_list(alloc: Global, items: Seq<Json>, version: u64) -> Result<Members, AllocError>
    ensures { IfOk result (λ m. m.entries ≡ table_list items version) }
{
    let mut members = Members::new(alloc);
    add(alloc, &mut members, "items", Json::Arr(items))?;
    add_word(alloc, &mut members, "kind", "TableList")?;
    let digits = decimal_text(alloc, version)?;
    add_made(alloc, &mut members, "resourceVersion", digits)?;
    Ok(members)
}

fn object_list(
    alloc: Global,
    kind: Kind,
    items: Seq<Json>,
    version: u64,
) -> Result<Members, AllocError>
    ensures { IfOk result (λ m. m.entries ≡ object_list kind items version) }
{
    let mut members = Members::new(alloc);
    add_word(alloc, &mut members, "apiVersion", api_version())?;
    add(alloc, &mut members, "items", Json::Arr(items))?;
    let word = list_word(alloc, kind)?;
    add_made(alloc, &mut members, "kind", word)?;
    let metadata = list_metadata(alloc, version)?;
    add(alloc, &mut members, "metadata", Json::Obj(metadata))?;
    Ok(members)
}

// `ServiceList` and the like.
fn list_word(alloc: Global, kind: Kind) -> Result<Text, AllocError>
    ensures { IfOk result (λ t. t ≡ kind_word kind ++ codes "List") }
{
    let mut word = String::from_str(alloc, kind.as_str())?;
    word.push_str("List")?;
    Ok(Text::from_string(word))
}

fn list_metadata(alloc: Global, version: u64) -> Result<Members, AllocError>
    ensures { IfOk result (λ m. m.entries ≡ list_metadata version) }
{
    let mut members = Members::new(alloc);
    let digits = decimal_text(alloc, version)?;
    add_made(alloc, &mut members, "resourceVersion", digits)?;
    Ok(members)
}
