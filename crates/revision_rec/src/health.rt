//! What a Health says of a Revision.
ghost use Rattle.std.specs.Prelude.{◌≡◌};
ghost use Rattle.std.specs.Option.{option_copied, option_map};
ghost use Rattle.control_rules.specs.Statuses.{reported_in};
ghost use Rattle.revision_rec.specs.Reports.{as_reported};

use resource_types::{Body, Object, Part};

/// What a Health says of a Revision.
#[derive(Clone, Copy)]
pub struct Reported<'a> {
    /// What it runs on.
    pub resources: &'a Part,
    /// Its container.
    pub container: &'a Part,
    /// Whether it was reported ready once.
    pub ever: bool,
}

/// What the Health says of the Revision of the uid. A Health of another uid says nothing of it.
pub fn reported_in(uid: u64, health: Option<&Object>) -> Option<Reported<'_>>
    ensures { option_map as_reported result ≡ reported_in uid (option_copied health.entry) }
{
    let object = health?;
    match &object.body {
        Body::Health {
            uid: of_uid,
            resources,
            container,
            ever,
        } => {
            if *of_uid == uid {
                Some(Reported {
                    resources,
                    container,
                    ever: *ever,
                })
            } else {
                None
            }
        }
        _ => None,
    }
}
