//! What is due to a Service.
ghost use Rattle.std.specs.Prelude.{◌≡◌, ◌&&◌, not, option_map, IfOk};
ghost use Rattle.resource_types.specs.Objects.{IsOf, targets_of};
ghost use Rattle.resource_types.specs.Lookups.{state};
ghost use Rattle.control_rules.specs.Standing.{is_owned_by_uid, template_of};
ghost use Rattle.control_rules.specs.NextService.{converted, same_targets, same_template, service_next};
ghost use Rattle.controller_parts.specs.Views.{due_plan};
ghost use Rattle.service_rec.specs.Laws.{service_makeable_of};

use crate::children::{
    configuration_with_template, made_configuration, made_route, route_with_targets, same_template,
    service_template,
};
use crate::status::{is_owned_by_uid, service_status};
use crate::targets::has_targets;
use controller_parts::{Due, plan_of, settle, standing, template_of};
use resource_types::{Kind, Name, Object};
use std::alloc::{AllocError, Global};
use version_store::{Plan, Reconciler, Store};

/// The Service controller.
#[derive(Drop)]
pub struct ServiceRec {}

// Whether the Configuration is the Service's, and has another template.
fn has_other_template(service: &Object, configuration: &Object) -> bool
    requires service { IsOf Kind.Service service.now }
    requires configuration { IsOf Kind.Configuration configuration.now }
    ensures { result ≡ (is_owned_by_uid service.now.meta.stamp.uid configuration.now && not (same_template (template_of configuration.now.body) (template_of service.now.body))) }
{
    is_owned_by_uid(service.meta.stamp.uid, configuration)
        && !same_template(template_of(configuration), service_template(service))
}

// Whether the Route is the Service's, and has other targets.
#[tactic(auto, unfolding(control_rules::specs::NextService::converted))]
fn has_other_targets(name: &Name, service: &Object, route: &Object) -> bool
    ensures { result ≡ (is_owned_by_uid service.now.meta.stamp.uid route.now && not (same_targets (targets_of route.now.body) (converted name.now service.now))) }
{
    is_owned_by_uid(service.meta.stamp.uid, route)
        && !has_targets(name, route.body.targets(), service.body.targets())
}

/// What is due to the Service of the name, by the first difference that holds.
pub fn look(
    alloc: Global,
    store: &Store<Object>,
    name: &Name,
    now: u64,
) -> Result<Option<Due>, AllocError>
    ensures { IfOk result (λ view. option_map due_plan view ≡ service_next (state store.now.entries) name.now now) }
{
    let Some(service) = standing(store, Kind::Service, &name.space, &name.name) else {
        return Ok(None);
    };
    let Some(configuration) = standing(store, Kind::Configuration, &name.space, &name.name) else {
        return Ok(Some(Due::Creation(made_configuration(alloc, name, service)?)));
    };
    if has_other_template(service, configuration) {
        let replaced = configuration_with_template(alloc, configuration, service)?;
        return Ok(Some(Due::Replacement(replaced)));
    }
    let Some(route) = standing(store, Kind::Route, &name.space, &name.name) else {
        return Ok(Some(Due::Creation(made_route(alloc, name, service)?)));
    };
    if has_other_targets(name, service, route) {
        let replaced = route_with_targets(alloc, route, name, service)?;
        return Ok(Some(Due::Replacement(replaced)));
    }
    let status = service_status(alloc, name, service, configuration, route)?;
    let due = settle(alloc, service, status, now)?;
    Ok(due)
}

impl Reconciler<Object> for ServiceRec {
    type View = Option<Due>;

    ghost fits = { λ r st now. Unit {0} };

    ghost next = { λ r st name now. service_next st name now };

    ghost means = { option_map due_plan };

    fn look(
        &self,
        alloc: Global,
        store: &Store<Object>,
        name: &Name,
        now: u64,
    ) -> Result<Option<Due>, AllocError> {
        look(alloc, store, name, now)
    }

    fn plan(&self, alloc: Global, view: &Option<Due>) -> Result<Option<Plan<Object>>, AllocError> {
        plan_of(alloc, view)
    }

    ghost makeable = { λ r st name now plan e. service_makeable_of st name now plan e };
}
