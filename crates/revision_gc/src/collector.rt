//! The Collector: what is due to a Configuration, of whose Revisions one may go.
ghost use Rattle.std.specs.Prelude.{◌≡◌, ◌&&◌, ◌||◌, ◌-◌, ◌^◌, ◌<◌, None, is_some, option_map, IfOk};
ghost use Rattle.std.specs.Option.{option_copied};
ghost use Rattle.resource_types.specs.Objects.{has_been_ready};
ghost use Rattle.resource_types.specs.Lookups.{state, is_called};
ghost use Rattle.control_rules.specs.Collection.{candidate_of, is_candidate, is_stale, collection_choice};
ghost use Rattle.control_rules.specs.Fits.{CollectorFits};
ghost use Rattle.control_rules.specs.NextCollector.{collector_next};
ghost use Rattle.controller_parts.specs.Views.{due_plan};
ghost use Rattle.revision_gc.specs.Choices.{candidate_as, picked};
ghost use Rattle.revision_gc.specs.Sweeps.{active_moment, is_candidate_beside, count_with, earlier_object, count_from, first_object, is_stale_candidate};
ghost use Rattle.revision_gc.specs.Laws.{collector_makeable_of};

use crate::ages::Age;
use crate::choice::{Pick, choose};
use control_rules::GcSettings;
use controller_parts::{Due, plan_of, removal_of, standing};
use json_tree::Text;
use resource_types::{Body, Kind, Name, Object, is_free, newest_owned, newest_ready, walk_space};
use std::alloc::{AllocError, Global};
use version_store::{Plan, Reconciler, Store, Walk};

/// The Collector, by the settings of collection.
#[derive(Drop)]
pub struct CollectorRec {
    /// When Revisions are collected.
    pub settings: GcSettings,
}

// The moment from which on a Revision has or lacks pins as it does, or at which it was made.
fn active_moment(revision: &Object) -> u64
    ensures { result ≡ active_moment revision.now }
{
    match &revision.body {
        Body::Revision {
            active: Some(moment),
            ..
        } => *moment,
        _ => revision.meta.stamp.created,
    }
}

// What collection knows of the Revision.
fn age_in(revision: &Object) -> Age<'_>
    ensures { candidate_as result ≡ candidate_of revision.now }
{
    Age {
        created: revision.meta.stamp.created,
        active: active_moment(revision),
        generation: revision.body.generation(),
        name: &revision.key.name.name,
    }
}

// Whether the object has the simple name.
fn is_called(name: &Text, object: Option<&Object>) -> bool
    ensures { result ≡ is_called name.now (option_copied object.entry) }
{
    match object {
        Some(object) => object.key.name.name == *name,
        None => false,
    }
}

// Whether one of the two has the simple name.
fn is_either(name: &Text, created: Option<&Object>, ready: Option<&Object>) -> bool
    ensures { result ≡ (is_called name.now (option_copied created.entry) || is_called name.now (option_copied ready.entry)) }
{
    is_called(name, created) || is_called(name, ready)
}

// Whether the Revision may be collected: the Configuration owns it, and it is neither of the two latest, and free. The
// last is asked last, since it goes over all Services and Routes.
fn is_candidate(
    store: &Store<Object>,
    configuration: &Object,
    created: Option<&Object>,
    ready: Option<&Object>,
    revision: &Object,
) -> bool
    ensures { result ≡ is_candidate_beside (option_copied created.entry) (option_copied ready.entry) (state store.now.entries) configuration.now revision.now }
{
    configuration.owns(revision)
        && !is_either(&revision.key.name.name, created, ready)
        && is_free(store, &revision.key.name)
}

// Whether the Revision counts and is stale.
fn is_stale_candidate(counts: bool, settings: &GcSettings, now: u64, revision: &Object) -> bool
    ensures { result ≡ (counts && is_stale settings.now now (candidate_of revision.now)) }
{
    counts && age_in(revision).is_stale(settings, now)
}

// One more, where it counts.
fn count_with(counts: bool, count: u64) -> u64
    requires { count < 2 ^ 64 - 1 }
    ensures { result ≡ count_with counts count }
{
    if counts { count + 1 } else { count }
}

// The first so far, or the Revision, where it counts and comes before.
fn earlier<'a>(counted: bool, best: Option<&'a Object>, revision: &'a Object) -> Option<&'a Object>
    ensures { option_copied result ≡ earlier_object counted (option_copied best.entry) revision.now }
{
    if !counted {
        return best;
    }
    match best {
        Some(other) => {
            if age_in(revision).comes_before(&age_in(other)) {
                Some(revision)
            } else {
                best
            }
        }
        None => Some(revision),
    }
}

// The candidates of a Configuration: how many, and the first of the stale ones and of all.
#[derive(Clone, Copy)]
struct Sweep<'a> {
    count: u64,
    stale: Option<&'a Object>,
    first: Option<&'a Object>,
}

// All candidates among the Revisions, in one walk.
fn swept<'a>(
    store: &Store<Object>,
    revisions: &Walk<'a, Object>,
    settings: &GcSettings,
    configuration: &Object,
    moment: u64,
) -> Sweep<'a>
    ensures count { result.count ≡ count_from (is_candidate has_been_ready (state store.now.entries) configuration.now) 0 revisions.now }
    ensures stale { option_copied result.stale ≡ first_object (is_stale_candidate settings.now moment (state store.now.entries) configuration.now) None revisions.now }
    ensures first { option_copied result.first ≡ first_object (is_candidate has_been_ready (state store.now.entries) configuration.now) None revisions.now }
{
    let created = newest_owned(store, configuration);
    let ready = newest_ready(store, configuration);
    let mut count = 0;
    let mut stale = None;
    let mut first = None;
    for place in 0..revisions.len() {
        let revision = revisions.at(place);
        let counts = is_candidate(store, configuration, created, ready, revision);
        let is_old = is_stale_candidate(counts, settings, moment, revision);
        count = count_with(counts, count);
        stale = earlier(is_old, stale, revision);
        first = earlier(counts, first, revision);
    }
    Sweep {
        count,
        stale,
        first,
    }
}

// Whether an object is there.
fn is_there(object: Option<&Object>) -> bool
    ensures { result ≡ is_some (option_copied object.entry) }
{
    object.is_some()
}

// The one that is picked.
fn picked<'a>(
    pick: Pick,
    stale: Option<&'a Object>,
    first: Option<&'a Object>,
) -> Option<&'a Object>
    ensures { option_copied result ≡ picked pick (option_copied stale.entry) (option_copied first.entry) }
{
    match pick {
        Pick::Stale => stale,
        Pick::First => first,
        Pick::Nobody => None,
    }
}

// The Revision of the Configuration that is collected, if any.
fn collected<'a>(
    store: &'a Store<Object>,
    settings: &GcSettings,
    configuration: &Object,
    moment: u64,
) -> Option<&'a Object>
    ensures { option_copied result ≡ collection_choice has_been_ready settings.now (state store.now.entries) configuration.now moment }
{
    let space = configuration.key.name.space.as_str();
    let revisions = walk_space(store, Kind::Revision, space);
    let seen = swept(store, &revisions, settings, configuration, moment);
    let pick = choose(settings, seen.count, is_there(seen.stale));
    picked(pick, seen.stale, seen.first)
}

// What is due to the Configuration of the name, by the settings.
fn removal_due(
    alloc: Global,
    store: &Store<Object>,
    settings: &GcSettings,
    name: &Name,
    now: u64,
) -> Result<Option<Due>, AllocError>
    ensures { IfOk result (λ view. option_map due_plan view ≡ collector_next settings.now (state store.now.entries) name.now now) }
{
    let Some(configuration) = standing(store, Kind::Configuration, &name.space, &name.name) else {
        return Ok(None);
    };
    let Some(revision) = collected(store, settings, configuration, now) else {
        return Ok(None);
    };
    Ok(Some(Due::Removal(removal_of(alloc, revision, true)?)))
}

impl CollectorRec {
    /// What is due to the Configuration of the name: the guarded removal of one of its Revisions, or nothing. A moment of
    /// a Revision that is later than `now` counts as `now`.
    pub fn look_at(
        &self,
        alloc: Global,
        store: &Store<Object>,
        name: &Name,
        now: u64,
    ) -> Result<Option<Due>, AllocError>
        ensures { IfOk result (λ view. option_map due_plan view ≡ collector_next self.now.settings (state store.now.entries) name.now now) }
    {
        removal_due(alloc, store, &self.settings, name, now)
    }
}

impl Reconciler<Object> for CollectorRec {
    type View = Option<Due>;

    ghost fits = { λ r st now. CollectorFits st now };

    ghost next = { λ r st name now. collector_next r.settings st name now };

    ghost means = { option_map due_plan };

    fn look(
        &self,
        alloc: Global,
        store: &Store<Object>,
        name: &Name,
        now: u64,
    ) -> Result<Option<Due>, AllocError> {
        removal_due(alloc, store, &self.settings, name, now)
    }

    fn plan(&self, alloc: Global, view: &Option<Due>) -> Result<Option<Plan<Object>>, AllocError> {
        plan_of(alloc, view)
    }

    ghost makeable = { λ r st name now plan e. collector_makeable_of r.settings st name now plan e };
}
