//! What paths name.
ghost use Rattle.std.specs.Prelude.{◌≡◌, option_map};
ghost use Rattle.std.specs.List.{list_all};
ghost use Rattle.api_paths.specs.Paths as paths;
ghost use Rattle.api_paths.specs.Seen.{resource_seen};

use crate::cuts::{at_slash, behind};
use resource_types::Kind;
use serve_names::is_label;

/// What stands before the namespace in the path of an object.
const NAMESPACES: &str = "/apis/serving.knative.dev/v1/namespaces/";

/// The longest namespace, in bytes.
const LONGEST_NAMESPACE: u64 = 63;

/// What a path names.
#[derive(Clone, Copy)]
pub(crate) enum Resource<'a> {
    /// The objects of a kind in a namespace.
    Collection {
        kind: Kind,
        space: &'a str,
    },
    /// One object.
    One {
        kind: Kind,
        space: &'a str,
        name: &'a str,
    },
    /// The reports of health.
    Reports,
    /// The clock.
    Clock,
    /// Single steps of the controllers.
    Steps,
    /// The work of the controllers until nothing is left to do.
    Settling,
    /// The numbers of objects.
    Overview,
}

/// What a path names, if anything.
#[tactic(auto, unfolding(crate::specs::Paths::resource_of))]
pub(crate) fn resource_of(path: &str) -> Option<Resource<'_>>
    ensures { option_map resource_seen result ≡ paths.resource_of path.now }
{
    match behind(NAMESPACES, path) {
        Some(rest) => space_path(rest),
        None => control_path(path),
    }
}

fn space_path(rest: &str) -> Option<Resource<'_>>
    ensures { option_map resource_seen result ≡ paths.space_path (paths.at_slash rest.now) }
{
    match at_slash(rest) {
        Some((space, rest)) if is_label(space.as_bytes(), LONGEST_NAMESPACE) => {
            kind_path(space, rest)
        }
        _ => None,
    }
}

fn kind_path<'a>(space: &'a str, rest: &'a str) -> Option<Resource<'a>>
    ensures { option_map resource_seen result ≡ paths.kind_path space.now rest.now (paths.at_slash rest.now) }
{
    match at_slash(rest) {
        Some((plural, name)) => one_of(kind_of(plural), space, name),
        None => collection_of(kind_of(rest), space),
    }
}

fn one_of<'a>(kind: Option<Kind>, space: &'a str, name: &'a str) -> Option<Resource<'a>>
    ensures { option_map resource_seen result ≡ paths.one_of kind space.now name.now }
{
    match kind {
        Some(kind) if is_segment(name) => Some(Resource::One { kind, space, name }),
        _ => None,
    }
}

fn collection_of(kind: Option<Kind>, space: &str) -> Option<Resource<'_>>
    ensures { option_map resource_seen result ≡ paths.collection_of kind space.now }
{
    match kind {
        Some(kind) => Some(Resource::Collection { kind, space }),
        None => None,
    }
}

/// Whether it is one segment of a path that isn't empty.
fn is_segment(text: &str) -> bool
    ensures { result ≡ paths.is_segment text.now }
{
    !text.is_empty() && has_no_slash(text.as_bytes())
}

fn has_no_slash(bytes: &[u8]) -> bool
    ensures { result ≡ list_all paths.is_no_slash bytes.now }
{
    bytes.iter().all(|byte| *byte != b'/')
}

/// The kind that a path writes in the plural.
fn kind_of(plural: &str) -> Option<Kind>
    ensures { result ≡ paths.beside plural.now paths.plurals }
{
    match plural {
        "services" => Some(Kind::Service),
        "configurations" => Some(Kind::Configuration),
        "revisions" => Some(Kind::Revision),
        "routes" => Some(Kind::Route),
        _ => None,
    }
}

/// What a path of the control plane names.
fn control_path(path: &str) -> Option<Resource<'static>>
    ensures { option_map resource_seen result ≡ paths.beside path.now paths.control_paths }
{
    match path {
        "/control/reports" => Some(Resource::Reports),
        "/control/clock" => Some(Resource::Clock),
        "/control/steps" => Some(Resource::Steps),
        "/control/settle" => Some(Resource::Settling),
        "/control/tables" => Some(Resource::Collection {
            kind: Kind::Table,
            space: "",
        }),
        "/control/summary" => Some(Resource::Overview),
        _ => None,
    }
}
