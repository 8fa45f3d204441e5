//! The header.
ghost use Rattle.std.specs.Prelude.{◌≡◌, ◌++◌, ◌∷◌, [], IfOk, OnOk};
ghost use Rattle.journal_text.specs.Lines.{count_json, header_of};

use crate::members::{add_number, add_text, add_word};
use control_rules::Settings;
use json_tree::Members;
use std::alloc::{AllocError, Global};

/// Adds a number of the settings. One that doesn't count is a word.
fn add_count(
    alloc: Global,
    members: &mut Members,
    name: &str,
    count: Option<u64>,
) -> Result<(), AllocError>
    ensures { OnOk result (members.new.entries ≡ members.old.entries ++ (name.now, count_json count) ∷ []) }
{
    match count {
        Some(count) => add_number(alloc, members, name, count),
        None => add_word(alloc, members, name, "disabled"),
    }
}

/// The settings and the moment of a plane.
pub fn header_line(alloc: Global, settings: &Settings, now: u64) -> Result<Members, AllocError>
    ensures { IfOk result (λ m. m.entries ≡ header_of settings.now now) }
{
    let gc = settings.gc;
    let mut members = Members::new(alloc);
    add_text(alloc, &mut members, "domain", &settings.domain)?;
    add_word(alloc, &mut members, "format", "serving-journal-1")?;
    add_count(alloc, &mut members, "maxNonActive", gc.most)?;
    add_number(alloc, &mut members, "minNonActive", gc.least)?;
    add_number(alloc, &mut members, "now", now)?;
    add_count(alloc, &mut members, "retainActive", gc.active)?;
    add_count(alloc, &mut members, "retainCreate", gc.create)?;
    Ok(members)
}
