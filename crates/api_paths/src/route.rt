//! The call of a method and a target.
ghost use Rattle.std.specs.Prelude.{◌≡◌, IfErr};
ghost use Rattle.api_paths.specs.Faults.{NamesMethods};
ghost use Rattle.api_paths.specs.Route as route;
ghost use Rattle.api_paths.specs.Seen.{answer_seen, call_seen};

use crate::calls::{Call, PathError};
use crate::cuts::at_mark;
use crate::methods::{allow_of, call_by};
use crate::queries::{has_dry_run, is_good_list, is_watching, version_after};
use crate::resources::resource_of;
use resource_types::Kind;

/// The call that a method makes on a target.
///
/// With `P` for `/apis/serving.knative.dev/v1/namespaces/{space}`, where `{space}` is a label of at most 63 bytes, and
/// a `{name}` that is one segment and not empty, these are the paths and their methods:
///
/// - `P/services`, `P/configurations`, `P/routes`: GET, POST
/// - `P/revisions`: GET
/// - `P/services/{name}`, `P/configurations/{name}`, `P/routes/{name}`: GET, PUT, PATCH, DELETE
/// - `P/revisions/{name}`: GET, DELETE
/// - `/control/reports`, `/control/clock`, `/control/steps`, `/control/settle`: POST
/// - `/control/tables`, `/control/summary`: GET
///
/// A query is cut at each `&`, and each part at its first `=`; a part without one has an empty value. On a GET of a
/// list, `/control/tables` included, `watch` with `1` or `true` makes the call a poll after `resourceVersion`, or after
/// 0 without one. Each error comes exactly where its variant says, the first one that does.
#[tactic(auto, unfolding(crate::specs::Route::call_of))]
pub fn route_of<'a>(method: &str, target: &'a str) -> Result<Call<'a>, PathError>
    ensures call { answer_seen result ≡ route.call_of method.now target.now }
    // A method that what the path names hasn't is answered with those that it has.
    ensures methods { IfErr result NamesMethods }
{
    let (path, query) = at_mark(target);
    let Some(resource) = resource_of(path) else {
        return Err(PathError::NoSuchPath);
    };
    match call_by(method, &resource) {
        Some(call) => asked(call, query.as_bytes()),
        None => Err(PathError::NoSuchMethod {
            allow: allow_of(&resource),
        }),
    }
}

#[tactic(auto, unfolding(crate::specs::Route::asked))]
fn asked<'a>(call: Call<'a>, query: &[u8]) -> Result<Call<'a>, PathError>
    ensures call { answer_seen result ≡ route.asked (call_seen call.entry) query.now }
    ensures methods { IfErr result NamesMethods }
{
    if has_dry_run(query) {
        return Err(PathError::BadQuery);
    }
    match call {
        Call::List { kind, space } => listed(kind, space, query),
        _ => Ok(call),
    }
}

fn listed<'a>(kind: Kind, space: &'a str, query: &[u8]) -> Result<Call<'a>, PathError>
    ensures call { answer_seen result ≡ route.listed kind space.now query.now }
    ensures methods { IfErr result NamesMethods }
{
    if !is_good_list(query) {
        return Err(PathError::BadQuery);
    }
    if is_watching(query) {
        let after = version_after(query);
        return Ok(Call::Poll { kind, space, after });
    }
    Ok(Call::List { kind, space })
}
