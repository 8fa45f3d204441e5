//! The five controllers as one, by the key of a slot. What each of them keeps of a look is what is due, so one view serves
//! all, and `plan_of` makes the plan of each.
ghost use Rattle.std.specs.Prelude.{◌≡◌, option_map, IfOk};
ghost use Rattle.resource_types.specs.Lookups.{state};
ghost use Rattle.control_rules.specs.Next.{next_write};
ghost use Rattle.controller_parts.specs.Views.{due_plan};
ghost use Rattle.step_scheduler.specs.Looking.{CanLook};

use configuration_rec::ConfigurationRec;
use control_rules::Settings;
use controller_parts::Due;
use resource_types::{Controller, Object, SlotKey};
use revision_gc::CollectorRec;
use revision_rec::RevisionRec;
use route_rec::RouteBy;
use service_rec::ServiceRec;
use std::alloc::{AllocError, Global};
use version_store::{Reconciler, Store};

/// What is due to the slot in the present state, at this moment.
#[tactic(auto, unfolding(control_rules::specs::Next::next_write))]
pub fn look(
    alloc: Global,
    settings: &Settings,
    store: &Store<Object>,
    key: &SlotKey,
    now: u64,
) -> Result<Option<Due>, AllocError>
    requires { CanLook key.now.controller (state store.now.entries) now }
    ensures { IfOk result (λ view. option_map due_plan view ≡ next_write settings.now key.now (state store.now.entries) now) }
{
    match key.controller {
        Controller::Service => {
            let due = ServiceRec {}.look(alloc, store, &key.name, now)?;
            Ok(due)
        }
        Controller::Configuration => {
            let due = ConfigurationRec {}.look(alloc, store, &key.name, now)?;
            Ok(due)
        }
        Controller::Revision => {
            let due = RevisionRec {}.look(alloc, store, &key.name, now)?;
            Ok(due)
        }
        Controller::Collector => {
            let collector = CollectorRec {
                settings: settings.gc,
            };
            let due = collector.look(alloc, store, &key.name, now)?;
            Ok(due)
        }
        Controller::Route => {
            let route = RouteBy {
                domain: &settings.domain,
            };
            let due = route.look(alloc, store, &key.name, now)?;
            Ok(due)
        }
    }
}
