//! The Table of a Route: made, or given what the targets come to.
ghost use Rattle.std.specs.Prelude.{◌≡◌, ◌↔◌, None, option_map, IfOk, IsTrue};
ghost use Rattle.std.specs.Option.{option_copied};
ghost use Rattle.resource_types.specs.Lookups.{state};
ghost use Rattle.control_rules.specs.Standing.{key_at};
ghost use Rattle.control_rules.specs.Differences.{new_object, no_labels};
ghost use Rattle.control_rules.specs.NextRoute.{published, same_body, table_differs};
ghost use Rattle.controller_parts.specs.Views.{due_plan};
ghost use Rattle.route_rec.specs.Published.{table_body};
ghost use Rattle.route_rec.specs.Traffic.{IsSeen};

use crate::traffic::Traffic;
use control_rules::Resolved;
use controller_parts::{Due, standing};
use json_tree::{Alike, Copied, Seq, Table};
use resource_types::{Body, Key, Kind, Meta, Name, Object, Row, Target};
use std::alloc::{AllocError, Global};
use version_store::{Stamp, Store};

/// What a Table has of its own.
#[derive(Clone, Copy)]
pub struct Content<'a> {
    /// The uid of its Route.
    pub route: u64,
    /// The rows.
    pub rows: &'a Seq<Row>,
    /// The targets.
    pub targets: &'a Seq<Target>,
}

// Whether the body has exactly this content.
fn is_of_content(body: &Body, content: &Content<'_>) -> bool
    ensures { IsTrue result ↔ (body.now ≡ table_body content.now) }
{
    match body {
        Body::Table {
            route,
            rows,
            targets,
        } => *route == content.route
            && rows.equals(content.rows)
            && targets.equals(content.targets),
        _ => false,
    }
}

// Whether the body has exactly this content.
fn has_content(body: &Body, content: &Content<'_>) -> bool
    ensures { result ≡ same_body body.now (table_body content.now) }
{
    is_of_content(body, content)
}

// A body of this content.
fn body_of(alloc: Global, content: &Content<'_>) -> Result<Body, AllocError>
    ensures { IfOk result (λ body. body ≡ table_body content.now) }
{
    let rows = content.rows.copy(alloc)?;
    Ok(Body::Table {
        route: content.route,
        rows,
        targets: content.targets.copy(alloc)?,
    })
}

// The Table that is made under the Route's name. It has no owner: its content names its Route.
fn made(alloc: Global, route: &Name, content: &Content<'_>) -> Result<Object, AllocError>
    ensures { IfOk result (λ table.
        table ≡ new_object (key_at Kind.Table route.now) None no_labels no_labels (table_body content.now)) }
{
    let key = Key {
        kind: Kind::Table,
        name: route.copy(alloc)?,
    };
    Ok(Object {
        key,
        meta: Meta {
            stamp: Stamp {
                version: 0,
                generation: 0,
                uid: 0,
                created: 0,
            },
            owner: None,
            labels: Table::new(alloc),
            annotations: Table::new(alloc),
        },
        body: body_of(alloc, content)?,
    })
}

// The Table that stands, with this content.
fn remade(alloc: Global, table: &Object, content: &Content<'_>) -> Result<Object, AllocError>
    ensures { IfOk result (λ after.
        after ≡ record { key = table.now.key; meta = table.now.meta; body = table_body content.now }) }
{
    let key = table.key.copy(alloc)?;
    let meta = table.meta.copy(alloc)?;
    Ok(Object {
        key,
        meta,
        body: body_of(alloc, content)?,
    })
}

// The Table is made, or gets the content where it has another.
#[tactic(auto, unfolding(control_rules::specs::Differences::when, control_rules::specs::NextRoute::published))]
fn published(
    alloc: Global,
    route: &Name,
    table: Option<&Object>,
    content: &Content<'_>,
) -> Result<Option<Due>, AllocError>
    ensures { IfOk result (λ due. option_map due_plan due
        ≡ published route.now (option_copied table.entry) (table_body content.now)) }
{
    let Some(table) = table else {
        return Ok(Some(Due::Creation(made(alloc, route, content)?)));
    };
    if has_content(&table.body, content) {
        return Ok(None);
    }
    Ok(Some(Due::Replacement(remade(alloc, table, content)?)))
}

/// The Table is published, where all targets are ready and it differs from what they come to.
pub fn table_differs(
    alloc: Global,
    store: &Store<Object>,
    traffic: &Traffic<'_>,
) -> Result<Option<Due>, AllocError>
    requires { IsSeen (state store.now.entries) traffic.now }
    ensures { IfOk result (λ due. option_map due_plan due
        ≡ table_differs traffic.now.domain.now (state store.now.entries) traffic.now.route.now) }
{
    let Resolved::Assigned { rows, targets } = traffic.resolved else {
        return Ok(None);
    };
    let content = Content {
        route: traffic.object.meta.stamp.uid,
        rows,
        targets,
    };
    let table = standing(
        store,
        Kind::Table,
        &traffic.route.space,
        &traffic.route.name,
    );
    let due = published(alloc, traffic.route, table, &content)?;
    Ok(due)
}
