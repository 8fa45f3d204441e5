//! The methods of what paths name.
ghost use Rattle.std.specs.Prelude.{◌≡◌, ◌≢◌, option_map, [], ◌∷◌, codes};
ghost use Rattle.api_paths.specs.Paths as paths;
ghost use Rattle.api_paths.specs.Seen.{call_seen, resource_seen};
ghost use Rattle.resource_types.specs.Manifests.{client_kind};

use crate::calls::Call;
use crate::resources::Resource;
use http_session::Allow;
use resource_types::Kind;

/// The call that a method makes, if the resource has it. That of a list is made without its query.
pub(crate) fn call_by<'a>(method: &str, resource: &Resource<'a>) -> Option<Call<'a>>
    ensures { option_map call_seen result ≡ paths.beside method.now (paths.methods_of (resource_seen resource.now)) }
{
    match *resource {
        Resource::Collection { kind, space } => collection_call(method, kind, space),
        Resource::One { kind, space, name } => object_call(method, kind, space, name),
        Resource::Reports => only(method, "POST", Call::Report),
        Resource::Clock => only(method, "POST", Call::SetClock),
        Resource::Steps => only(method, "POST", Call::Step),
        Resource::Settling => only(method, "POST", Call::Settle),
        Resource::Overview => only(method, "GET", Call::Summary),
    }
}

/// The methods that the resource has.
pub(crate) fn allow_of(resource: &Resource<'_>) -> Allow
    ensures methods { result ≡ paths.allow_of (resource_seen resource.now) }
    ensures some { result ≢ Allow.None }
{
    match resource {
        Resource::Collection { kind, .. } => match kind.client_kind() {
            Some(_) => Allow::GetPost,
            None => Allow::Get,
        },
        Resource::One { kind, .. } => match kind.client_kind() {
            Some(_) => Allow::GetPutPatchDelete,
            None => Allow::GetDelete,
        },
        Resource::Overview => Allow::Get,
        _ => Allow::Post,
    }
}

fn collection_call<'a>(method: &str, kind: Kind, space: &'a str) -> Option<Call<'a>>
    ensures { option_map call_seen result
        ≡ paths.beside method.now (paths.collection_methods kind space.now (client_kind kind)) }
{
    if method == "GET" {
        return Some(Call::List { kind, space });
    }
    match kind.client_kind() {
        Some(kind) if method == "POST" => Some(Call::Create { kind, space }),
        _ => None,
    }
}

fn object_call<'a>(method: &str, kind: Kind, space: &'a str, name: &'a str) -> Option<Call<'a>>
    ensures { option_map call_seen result
        ≡ paths.beside method.now (paths.object_methods kind space.now name.now (client_kind kind)) }
{
    if method == "GET" {
        return Some(Call::Read { kind, space, name });
    }
    if method == "DELETE" {
        return Some(Call::Remove { kind, space, name });
    }
    match kind.client_kind() {
        Some(kind) if method == "PUT" => Some(Call::Replace { kind, space, name }),
        Some(kind) if method == "PATCH" => Some(Call::Patch { kind, space, name }),
        _ => None,
    }
}

fn only<'a>(method: &str, has: &str, call: Call<'a>) -> Option<Call<'a>>
    ensures { option_map call_seen result ≡ paths.beside method.now ((has.now, call_seen call.entry) ∷ []) }
{
    if method == has { Some(call) } else { None }
}
