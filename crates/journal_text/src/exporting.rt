//! The text of a plane.
ghost use Rattle.std.specs.Prelude.{◌≡◌, IfOk};
ghost use Rattle.journal_text.specs.Texts.{journal_text};

use crate::header::header_line;
use crate::texts::{add_entries, add_line};
use std::alloc::{AllocError, Global};
use step_scheduler::Plane;

/// The journal of a plane as text, with its settings and its moment in the first line. Each entry is read once.
pub fn export(alloc: Global, plane: &Plane) -> Result<Vec<u8>, AllocError>
    ensures text { IfOk result (λ text. text.items ≡ journal_text plane.now.plane) }
{
    let mut text = Vec::new(alloc);
    let first = header_line(alloc, plane.settings(), plane.now())?;
    add_line(alloc, &mut text, first)?;
    add_entries(alloc, &mut text, plane.store().entries())?;
    Ok(text)
}
