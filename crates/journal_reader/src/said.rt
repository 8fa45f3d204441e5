//! The line that says what was done.
ghost use Rattle.std.specs.Prelude.{◌≡◌, ◌↔◌, IsTrue, IfOk};
ghost use Rattle.journal_text.specs.Reads.{line_text, HasShortNumbers};
ghost use Rattle.journal_reader.specs.Deeds.{IsGoodDeed};
ghost use Rattle.journal_reader.specs.Lines.{members_of, HasShortPut};

use crate::deeds::{Deed, Line};
use journal_text::{asking_line, look_line, manifest_text, removal_line, report_line};
use json_tree::{Json, Members, write_json};
use std::alloc::{AllocError, Global};

/// The members of the line.
fn members_said(alloc: Global, line: &Line) -> Result<Members, AllocError>
    requires { IsGoodDeed line.now.deed }
    ensures members { IfOk result (λ m. m.entries ≡ members_of line.now) }
    ensures put { IfOk result (λ _. HasShortPut line.now.deed) }
{
    match &line.deed {
        Deed::Put { manifest, .. } => {
            let text = manifest_text(alloc, manifest)?;
            asking_line(alloc, line.moment, text)
        }
        Deed::Remove(key) => removal_line(alloc, line.moment, key),
        Deed::Report(report) => report_line(
            alloc,
            line.moment,
            &report.revision,
            &report.resources,
            &report.container,
        ),
        Deed::Write { key, read_at, seen } => look_line(alloc, line.moment, key, *read_at, *seen),
    }
}

/// Whether these are the bytes that say what was done. Whatever they are, each number that is said is of 64 bits.
pub(crate) fn is_said(alloc: Global, line: &Line, bytes: &[u8]) -> Result<bool, AllocError>
    requires { IsGoodDeed line.now.deed }
    ensures text { IfOk result (λ same. IsTrue same ↔ (line_text (members_of line.now) ≡ bytes.now)) }
    ensures numbers { IfOk result (λ _. HasShortNumbers (members_of line.now)) }
    ensures put { IfOk result (λ _. HasShortPut line.now.deed) }
{
    let members = members_said(alloc, line)?;
    let text = write_json(alloc, &Json::Obj(members))?;
    Ok(text.as_slice() == bytes)
}
