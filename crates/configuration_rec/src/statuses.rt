//! The status of a Configuration, by its Revisions.
ghost use Rattle.std.specs.Prelude.{◌≡◌, Some, IfOk};
ghost use Rattle.std.specs.Option.{option_copied};
ghost use Rattle.resource_types.specs.Lookups.{state};
ghost use Rattle.control_rules.specs.Statuses.{child_condition, child_of, is_current};
ghost use Rattle.control_rules.specs.Readings.{simple_name_of, stored_status};
ghost use Rattle.configuration_rec.specs.Statuses.{current_condition, taken_condition, configuration_status_by};

use controller_parts::{about, condition_of, stated};
use json_tree::Text;
use resource_types::{
    CondName, Condition, Object, ObjectStatus, Truth, newest_owned, newest_ready,
};
use std::alloc::{AllocError, Global};
use version_store::Store;

// Whether the Configuration owns the Revision, and it has the Configuration's generation.
fn is_current(configuration: &Object, revision: &Object) -> bool
    ensures { result ≡ is_current configuration.now revision.now }
{
    configuration.owns(revision)
        && revision.body.generation() == configuration.meta.stamp.generation
}

// What the current Revision says of itself.
fn current_condition(alloc: Global, revision: &Object) -> Result<Condition, AllocError>
    ensures { IfOk result (λ c. c ≡ current_condition revision.now) }
{
    match condition_of(revision.body.conditions(), CondName::Ready) {
        Some(ready) => {
            let message = ready.message.copy(alloc)?;
            stated(
                alloc,
                CondName::Ready,
                ready.truth,
                ready.reason.as_str(),
                message,
            )
        }
        None => {
            let message = Text::new(alloc, "the revision has no status yet")?;
            stated(
                alloc,
                CondName::Ready,
                Truth::Unknown,
                "NotObserved",
                message,
            )
        }
    }
}

// That another Revision has the name.
fn taken_condition(alloc: Global, name: &Text) -> Result<Condition, AllocError>
    ensures { IfOk result (λ c. c ≡ taken_condition name.now) }
{
    let message = about(alloc, "revision ", name, " is taken")?;
    stated(
        alloc,
        CondName::Ready,
        Truth::False,
        "RevisionNameTaken",
        message,
    )
}

// The condition of the Configuration, where a Revision stands under the name.
fn child_condition(
    alloc: Global,
    configuration: &Object,
    name: &Text,
    child: &Object,
) -> Result<Condition, AllocError>
    ensures { IfOk result (λ c.
        c ≡ child_condition name.now (child_of stored_status configuration.now (Some child.now))) }
{
    if is_current(configuration, child) {
        current_condition(alloc, child)
    } else {
        taken_condition(alloc, name)
    }
}

// The simple name of an object, or an empty one.
fn name_of(alloc: Global, object: Option<&Object>) -> Result<Text, AllocError>
    ensures { IfOk result (λ name. name ≡ simple_name_of (option_copied object.entry)) }
{
    match object {
        Some(object) => object.key.name.name.copy(alloc),
        None => Text::new(alloc, ""),
    }
}

/// The status of a Configuration whose Revision has the name, and under which a Revision stands.
#[tactic(auto, unfolding(control_rules::specs::Statuses::configuration_status))]
pub fn status_of(
    alloc: Global,
    store: &Store<Object>,
    configuration: &Object,
    name: &Text,
    child: &Object,
) -> Result<ObjectStatus, AllocError>
    ensures { IfOk result (λ s.
        s
        ≡ configuration_status_by (state store.now.entries) configuration.now name.now child.now) }
{
    let mut status = ObjectStatus::empty(alloc)?;
    status.observed = configuration.meta.stamp.generation;
    status.created = name_of(alloc, newest_owned(store, configuration))?;
    status.ready = name_of(alloc, newest_ready(store, configuration))?;
    status
        .conditions
        .push(child_condition(alloc, configuration, name, child)?)?;
    Ok(status)
}
