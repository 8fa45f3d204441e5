//! Settings of a plane.
ghost use Rattle.std.specs.Prelude.{◌≡◌, ◌↔◌, IsTrue, IfOk};
ghost use Rattle.step_scheduler.specs.Standard.{standard_plane_settings};

use control_rules::Settings;
use json_tree::{Alike, Text};
use std::alloc::{AllocError, Global};

/// The settings where none are given: the domain `example.com`, and the standard settings of collection.
pub fn standard_settings(alloc: Global) -> Result<Settings, AllocError>
    ensures { IfOk result (λ settings. settings ≡ standard_plane_settings) }
{
    Ok(Settings {
        domain: Text::new(alloc, "example.com")?,
        gc: revision_gc::standard_settings(),
    })
}

/// Whether two settings are equal.
pub fn are_same(one: &Settings, two: &Settings) -> bool
    ensures { IsTrue result ↔ (one.now ≡ two.now) }
{
    one.domain.equals(&two.domain)
        && one.gc.create.equals(&two.gc.create)
        && one.gc.active.equals(&two.gc.active)
        && one.gc.least == two.gc.least
        && one.gc.most.equals(&two.gc.most)
}
