//! Lists of what stands.
ghost use Rattle.std.specs.Prelude.{◌≡◌, ◌++◌, Some, codes, length, map, IfOk, OnOk, IsUtf8};
ghost use Rattle.std.specs.Option.{option_copied};
ghost use Rattle.serde_json.specs.Written.{compact_text};
ghost use Rattle.json_tree.specs.Tree.{data_of};
ghost use Rattle.json_tree.specs.declared.value.Json.{Arr};
ghost use Rattle.resource_types.specs.Manifests.{kind_word};
ghost use Rattle.resource_codec.specs.Written.{object_of};
ghost use Rattle.resource_codec.specs.Objects.{encoded};
ghost use Rattle.resource_codec.specs.Lists.{list_metadata, object_list, table_list};
ghost use Rattle.resource_codec.specs.Views.{objects_asked, list_of};
ghost use Rattle.object_writer.specs.Tokens.{with_value, with_values, with_field};

use crate::objects::show_object;
use crate::text::JsonText;
use json_tree::Text;
use resource_types::{Kind, Object, api_version, walk_space};
use std::alloc::{AllocError, Global};
use version_store::{Store, Walk};

/// The text of the list of a kind: the objects of the kind that stand, and in the namespace where one is given, in
/// order of name, and the journal's length.
pub fn write_list(
    alloc: Global,
    store: &Store<Object>,
    kind: Kind,
    space: Option<&Text>,
) -> Result<Vec<u8>, AllocError>
    ensures text { IfOk result
        (λ bytes. bytes.items ≡ compact_text (data_of (list_of store.now.entries kind (option_copied space.entry)))) }
    ensures utf8 { IfOk result (λ bytes. IsUtf8 bytes.items) }
{
    let mut out = JsonText::new(alloc)?;
    show_list(alloc, &mut out, store, kind, space)?;
    Ok(out.into_bytes())
}

fn show_list(
    alloc: Global,
    out: &mut JsonText,
    store: &Store<Object>,
    kind: Kind,
    space: Option<&Text>,
) -> Result<(), AllocError>
    ensures { OnOk result (out.new ≡ with_value (list_of store.now.entries kind (option_copied space.entry)) out.old) }
{
    if kind == Kind::Table {
        show_tables(alloc, out, store, kind, space)
    } else {
        show_objects(alloc, out, store, kind, space)
    }
}

// Writes a list in the form of Tables, which has no API version.
fn show_tables(
    alloc: Global,
    out: &mut JsonText,
    store: &Store<Object>,
    kind: Kind,
    space: Option<&Text>,
) -> Result<(), AllocError>
    ensures { OnOk result (out.new ≡ with_value (object_of (table_list
        (map encoded (objects_asked store.now.entries kind (option_copied space.entry))) (length store.now.entries))) out.old) }
{
    out.open_object()?;
    items_field(alloc, out, store, kind, space)?;
    out.text_field("kind", "TableList")?;
    out.digits_field("resourceVersion", store.version())?;
    out.close_object()
}

// Writes a list in the form of the other kinds.
fn show_objects(
    alloc: Global,
    out: &mut JsonText,
    store: &Store<Object>,
    kind: Kind,
    space: Option<&Text>,
) -> Result<(), AllocError>
    ensures { OnOk result (out.new ≡ with_value (object_of (object_list kind
        (map encoded (objects_asked store.now.entries kind (option_copied space.entry))) (length store.now.entries))) out.old) }
{
    out.open_object()?;
    out.text_field("apiVersion", api_version())?;
    items_field(alloc, out, store, kind, space)?;
    out.text_field("kind", list_word(kind))?;
    metadata_field(out, store.version())?;
    out.close_object()
}

// `ServiceList` and the like.
fn list_word(kind: Kind) -> &'static str
    ensures { result.now ≡ kind_word kind ++ codes "List" }
{
    match kind {
        Kind::Service => "ServiceList",
        Kind::Configuration => "ConfigurationList",
        Kind::Revision => "RevisionList",
        Kind::Route => "RouteList",
        Kind::Health => "HealthList",
        Kind::Table => "TableList",
    }
}

// Writes the version of the list, as its metadata.
fn metadata_field(out: &mut JsonText, version: u64) -> Result<(), AllocError>
    ensures { OnOk result (out.new ≡ with_field (codes "metadata") (Some (object_of (list_metadata version))) out.old) }
{
    out.name("metadata")?;
    out.open_object()?;
    out.digits_field("resourceVersion", version)?;
    out.close_object()
}

// Writes the objects that are asked for. They stand even where there are none.
fn items_field(
    alloc: Global,
    out: &mut JsonText,
    store: &Store<Object>,
    kind: Kind,
    space: Option<&Text>,
) -> Result<(), AllocError>
    ensures { OnOk result (out.new ≡ with_field (codes "items")
        (Some (Arr (map encoded (objects_asked store.now.entries kind (option_copied space.entry))))) out.old) }
{
    out.name("items")?;
    out.open_array()?;
    show_items(alloc, out, store, kind, space)?;
    out.close_array()
}

// Writes the objects that are asked for. A namespace is found by a search, and no other one is read.
fn show_items(
    alloc: Global,
    out: &mut JsonText,
    store: &Store<Object>,
    kind: Kind,
    space: Option<&Text>,
) -> Result<(), AllocError>
    ensures { OnOk result (out.new
        ≡ with_values (map encoded (objects_asked store.now.entries kind (option_copied space.entry))) out.old) }
{
    match space {
        Some(space) => show_walk(alloc, out, &walk_space(store, kind, space.as_str())),
        None => show_walk(alloc, out, &store.walk(kind)),
    }
}

fn show_walk(
    alloc: Global,
    out: &mut JsonText,
    objects: &Walk<'_, Object>,
) -> Result<(), AllocError>
    ensures { OnOk result (out.new ≡ with_values (map encoded objects.now) out.old) }
{
    for place in 0..objects.len() {
        show_object(alloc, out, objects.at(place))?;
    }
    Ok(())
}
