//! The look of the Configuration controller.
ghost use Rattle.std.specs.Prelude.{◌≡◌, option_map, IfOk};
ghost use Rattle.resource_types.specs.Lookups.{state};
ghost use Rattle.control_rules.specs.NextConfiguration.{configuration_next};
ghost use Rattle.controller_parts.specs.Views.{due_plan};
ghost use Rattle.configuration_rec.specs.Laws.{configuration_makeable_of};

use crate::revisions::{made_revision, revision_name};
use crate::statuses::status_of;
use controller_parts::{Due, is_orphan, plan_of, removal_of, settle, standing};
use resource_types::{Kind, Name, Object};
use std::alloc::{AllocError, Global};
use version_store::{Plan, Reconciler, Store};

/// The Configuration controller. On a Configuration that stands: where its owner is gone, it is removed; where no Revision
/// of the name stands that is its Revision's, that Revision is made; else it gets the status that its Revisions give it,
/// where it has another.
#[derive(Drop)]
pub struct ConfigurationRec {}

// What is due to the Configuration of the name.
fn look(
    alloc: Global,
    store: &Store<Object>,
    name: &Name,
    now: u64,
) -> Result<Option<Due>, AllocError>
    ensures { IfOk result (λ view.
        option_map due_plan view ≡ configuration_next (state store.now.entries) name.now now) }
{
    let Some(configuration) = standing(store, Kind::Configuration, &name.space, &name.name) else {
        return Ok(None);
    };
    if is_orphan(store, configuration) {
        return Ok(Some(Due::Removal(removal_of(alloc, configuration, false)?)));
    }
    let wanted = revision_name(alloc, configuration)?;
    match standing(store, Kind::Revision, &wanted.space, &wanted.name) {
        None => Ok(Some(Due::Creation(made_revision(alloc, configuration)?))),
        Some(child) => {
            let status = status_of(alloc, store, configuration, &wanted.name, child)?;
            let due = settle(alloc, configuration, status, now)?;
            Ok(due)
        }
    }
}

impl Reconciler<Object> for ConfigurationRec {
    type View = Option<Due>;

    ghost fits = { λ r st now. Unit {0} };

    ghost next = { λ r st name now. configuration_next st name now };

    ghost means = { option_map due_plan };

    fn look(
        &self,
        alloc: Global,
        store: &Store<Object>,
        name: &Name,
        now: u64,
    ) -> Result<Option<Due>, AllocError> {
        look(alloc, store, name, now)
    }

    fn plan(&self, alloc: Global, view: &Option<Due>) -> Result<Option<Plan<Object>>, AllocError> {
        plan_of(alloc, view)
    }

    ghost makeable = { λ r st name now plan e. configuration_makeable_of st name now plan e };
}
