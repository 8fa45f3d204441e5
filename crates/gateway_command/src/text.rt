//! The lines that are written.
ghost use Rattle.std.specs.Prelude.{◌≡◌, ◌+◌, ◌≤◌, ◌<◌, ◌^◌, ◌++◌, IfOk, OnOk};
ghost use Rattle.std.specs.Option.{option_copied};
ghost use Rattle.gateway_pick.specs.Picks.{pick_among};
ghost use Rattle.gateway_command.specs.Texts.{picked, pick_line, picks_text};

use gateway_pick::pick_among;
use itoa::Buffer;
use json_tree::Text;
use resource_types::Row;
use serve_names::uid_text;
use std::alloc::{AllocError, Global};

/// Adds the Revision of a row and its uid, or a dash where there is no row.
fn add_picked(alloc: Global, text: &mut Vec<u8>, row: Option<&Row>) -> Result<(), AllocError>
    ensures { OnOk result (text.new.items ≡ text.old.items ++ picked (option_copied row.entry)) }
{
    match row {
        Some(row) => {
            text.extend_from_slice(row.revision.bytes())?;
            text.push(b' ')?;
            text.extend_from_slice(uid_text(alloc, row.uid)?.bytes())?;
            Ok(())
        }
        None => {
            text.push(b'-')?;
            Ok(())
        }
    }
}

/// Adds the line of a number.
fn add_line(
    alloc: Global,
    text: &mut Vec<u8>,
    number: u64,
    row: Option<&Row>,
) -> Result<(), AllocError>
    ensures { OnOk result (text.new.items ≡ text.old.items ++ pick_line number (option_copied row.entry)) }
{
    let mut digits = Buffer::new();
    text.extend_from_slice(digits.format(number).as_bytes())?;
    text.push(b' ')?;
    add_picked(alloc, text, row)?;
    text.push(b'\n')?;
    Ok(())
}

/// The lines of so many numbers, from the first one on, by the row with the host that each picks.
pub(crate) fn picks_text(
    alloc: Global,
    rows: &[Row],
    host: &Text,
    first: u64,
    count: u64,
) -> Result<Vec<u8>, AllocError>
    requires { first + count < 2 ^ 64 }
    ensures { IfOk result (λ text. text.items ≡ picks_text (pick_among rows.now host.now) first count) }
{
    let mut text = Vec::new(alloc);
    for place in 0..count {
        let number = first + place;
        add_line(
            alloc,
            &mut text,
            number,
            pick_among(rows, host.bytes(), number),
        )?;
    }
    Ok(text)
}
