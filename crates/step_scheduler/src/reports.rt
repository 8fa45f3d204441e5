//! Reports of the health of Revisions.
ghost use Rattle.std.specs.Prelude.{◌≡◌, option_map, IfOk};
ghost use Rattle.std.specs.Option.{option_copied};
ghost use Rattle.resource_types.specs.Lookups.{state};
ghost use Rattle.control_rules.specs.Standing.{standing};
ghost use Rattle.control_rules.specs.Statuses.{reported_in, ever_of};
ghost use Rattle.control_rules.specs.Steps.{is_true, is_ever, expect_of};
ghost use Rattle.step_scheduler.specs.Reported.{IsReportPlan};

use control_rules::Report;
use controller_parts::standing as standing_of;
use json_tree::{Copied, Table};
use resource_types::{Body, Key, Kind, Meta, Name, Object, Part, Truth, standing};
use std::alloc::{AllocError, Global};
use version_store::{Change, Expect, Plan, Stamp, Store};

/// The uid of the Revision that stands under the name.
pub fn uid_of(store: &Store<Object>, name: &Name) -> Option<u64>
    ensures { result ≡ option_map (λ o. o.meta.stamp.uid) (standing Kind.Revision name.now (state store.now.entries)) }
{
    let revision = standing_of(store, Kind::Revision, &name.space, &name.name)?;
    Some(revision.meta.stamp.uid)
}

// Whether a Health says that the Revision of the uid was ready once.
fn was_ever(uid: u64, health: Option<&Object>) -> bool
    ensures { result ≡ ever_of (reported_in uid (option_copied health.entry)) }
{
    match health {
        Some(health) => match &health.body {
            Body::Health { uid: of, ever, .. } => *of == uid && *ever,
            _ => false,
        },
        None => false,
    }
}

// Whether a part is in order.
fn is_true(part: &Part) -> bool
    ensures { result ≡ is_true part.now }
{
    part.truth == Truth::True
}

// Whether the Revision of the uid was ready once, by this report or by the Health that stands.
fn is_ever(uid: u64, resources: &Part, container: &Part, health: Option<&Object>) -> bool
    ensures { result ≡ is_ever uid resources.now container.now (option_copied health.entry) }
{
    (is_true(resources) && is_true(container)) || was_ever(uid, health)
}

// What stands is expected to stand.
fn expect_of(object: Option<&Object>) -> Expect
    ensures { result ≡ expect_of (option_copied object.entry) }
{
    match object {
        Some(object) => Expect::At(object.meta.stamp.version),
        None => Expect::Absent,
    }
}

/// The plan of a report on the Revision of the uid.
pub fn report_plan(
    alloc: Global,
    store: &Store<Object>,
    report: Report,
    uid: u64,
) -> Result<Plan<Object>, AllocError>
    ensures { IfOk result (IsReportPlan store.now.entries report uid) }
{
    let health = standing(
        store,
        Kind::Health,
        report.revision.space.as_str(),
        report.revision.name.as_str(),
    );
    let expect = expect_of(health);
    let ever = is_ever(uid, &report.resources, &report.container, health);
    let name = report.revision.copy(alloc)?;
    let Report {
        revision,
        resources,
        container,
    } = report;
    Ok(Plan {
        key: Key {
            kind: Kind::Health,
            name,
        },
        expect,
        guarded: false,
        change: Change::Put(Object {
            key: Key {
                kind: Kind::Health,
                name: revision,
            },
            meta: Meta {
                stamp: Stamp {
                    version: 0,
                    generation: 0,
                    uid: 0,
                    created: 0,
                },
                owner: None,
                labels: Table::new(alloc),
                annotations: Table::new(alloc),
            },
            body: Body::Health {
                uid,
                resources,
                container,
                ever,
            },
        }),
    })
}
