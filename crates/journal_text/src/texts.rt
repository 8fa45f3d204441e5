//! Lines as text.
ghost use Rattle.std.specs.Prelude.{◌≡◌, ◌++◌, OnOk, IfOk};
ghost use Rattle.std.specs.List.{All};
ghost use Rattle.resource_codec.specs.Sound.{Fits};
ghost use Rattle.resource_codec.specs.Written.{object_of};
ghost use Rattle.journal_text.specs.Lines.{line_of};
ghost use Rattle.journal_text.specs.Texts.{line_bytes, entry_lines, IsTold};

use crate::entries::line;
use json_tree::{Json, Members, write_json};
use resource_types::Object;
use std::alloc::{AllocError, Global};
use version_store::Entry;

/// Adds a line, as compact JSON behind which is a line feed.
pub(crate) fn add_line(
    alloc: Global,
    text: &mut Vec<u8>,
    members: Members,
) -> Result<(), AllocError>
    requires { Fits 64 (object_of members.entries) }
    ensures { OnOk result (text.new.items ≡ text.old.items ++ line_bytes members.entries) }
{
    let json = Json::Obj(members);
    let bytes = write_json(alloc, &json)?;
    text.extend_from_slice(bytes.as_slice())?;
    text.push(b'\n')?;
    Ok(())
}

/// Adds the line of an entry.
fn add_entry(alloc: Global, text: &mut Vec<u8>, entry: &Entry<Object>) -> Result<(), AllocError>
    requires { IsTold entry.now }
    ensures { OnOk result (text.new.items ≡ text.old.items ++ line_bytes (line_of entry.now)) }
{
    let members = line(alloc, entry)?;
    add_line(alloc, text, members)
}

/// The line of an entry, with its line feed.
pub fn entry_line(alloc: Global, entry: &Entry<Object>) -> Result<Vec<u8>, AllocError>
    requires { IsTold entry.now }
    ensures { IfOk result (λ text. text.items ≡ line_bytes (line_of entry.now)) }
{
    let mut text = Vec::new(alloc);
    add_entry(alloc, &mut text, entry)?;
    Ok(text)
}

/// Adds the lines of some entries, in their order.
pub(crate) fn add_entries(
    alloc: Global,
    text: &mut Vec<u8>,
    entries: &[Entry<Object>],
) -> Result<(), AllocError>
    requires { All IsTold entries.now }
    ensures { OnOk result (text.new.items ≡ text.old.items ++ entry_lines entries.now) }
{
    for entry in entries {
        add_entry(alloc, text, entry)?;
    }
    Ok(())
}
