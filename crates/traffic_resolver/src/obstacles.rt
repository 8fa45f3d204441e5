//! The first target that isn't ready.
ghost use Rattle.std.specs.Prelude.{◌≡◌, length, IfOk};
ghost use Rattle.std.specs.List.{zip};
ghost use Rattle.control_rules.specs.Resolution.{given_name, hindrance, first_hindrance};

use control_rules::{Found, Named, Resolved};
use controller_parts::is_blank;
use json_tree::Text;
use resource_types::Target;
use std::alloc::{AllocError, Global};

// The name that a target gives.
fn given_name(target: &Target) -> &Text
    ensures { result.now ≡ given_name target.now }
{
    if is_blank(&target.revision) {
        &target.configuration
    } else {
        &target.revision
    }
}

// What hinders the target at the place, unless it is ready.
fn hindrance(
    alloc: Global,
    place: u64,
    target: &Target,
    found: &Found,
) -> Result<Option<Resolved>, AllocError>
    ensures { IfOk result (λ hindered. hindered ≡ hindrance place target.now found.now) }
{
    match found {
        Found::ConfigurationAbsent => Ok(Some(Resolved::Missing {
            place,
            kind: Named::Configuration,
            name: target.configuration.copy(alloc)?,
        })),
        Found::ConfigurationUnready => Ok(Some(Resolved::Unready {
            place,
            kind: Named::Configuration,
            name: target.configuration.copy(alloc)?,
        })),
        Found::RevisionAbsent => Ok(Some(Resolved::Missing {
            place,
            kind: Named::Revision,
            name: given_name(target).copy(alloc)?,
        })),
        Found::RevisionUnready => Ok(Some(Resolved::Unready {
            place,
            kind: Named::Revision,
            name: given_name(target).copy(alloc)?,
        })),
        Found::Ready { .. } => Ok(None),
    }
}

/// What hinders the first target that isn't ready, where one isn't.
pub fn first_hindrance(
    alloc: Global,
    targets: &[Target],
    found: &[Found],
) -> Result<Option<Resolved>, AllocError>
    requires { length found.now ≡ length targets.now }
    ensures { IfOk result (λ hindered. hindered ≡ first_hindrance 0 (zip targets.now found.now)) }
{
    for place in 0..targets.len() {
        if let Some(hindered) = hindrance(alloc, place as u64, &targets[place], &found[place])? {
            return Ok(Some(hindered));
        }
    }
    Ok(None)
}
