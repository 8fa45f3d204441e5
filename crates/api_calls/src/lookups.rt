//! What stands under a name.
ghost use Rattle.std.specs.Prelude.{◌≡◌, IfOk};
ghost use Rattle.std.specs.Option.{option_copied, ForSome};
ghost use Rattle.answers.specs.Answers.{Comes, ComesAs};
ghost use Rattle.resource_codec.specs.Storable.{AreStorable};
ghost use Rattle.api_puts.specs.Puts as puts;
ghost use Rattle.api_puts.specs.Puts.{StandsAs};
ghost use Rattle.api_calls.specs.Agreement as spec;

use answers::Stop;
use api_outcomes::Refusal;
use json_tree::Text;
use resource_types::{Kind, Object, standing};
use std::alloc::Global;
use version_store::Store;

/// The object of a kind, a namespace and a name that stands.
pub(crate) fn object_at<'a>(
    store: &'a Store<Object>,
    kind: Kind,
    space: &str,
    name: &str,
) -> Option<&'a Object>
    requires { AreStorable store.now.entries }
    ensures value { option_copied result ≡ puts.standing store.now.entries kind space.now name.now }
    ensures stands { ForSome (option_copied result) (StandsAs store.now.entries kind space.now name.now) }
{
    // Its contract tells that the entries are stamped, by which what stands was put as it stands.
    let _version = store.version();
    standing(store, kind, space, name)
}

/// The object of a kind, a namespace and a name that stands, or that there is none.
pub(crate) fn there<'a>(
    alloc: Global,
    store: &'a Store<Object>,
    kind: Kind,
    space: &str,
    name: &str,
) -> Result<&'a Object, Stop<Refusal>>
    requires { AreStorable store.now.entries }
    ensures value { ComesAs (λ o. o.now) result (spec.there kind name.now (puts.standing store.now.entries kind space.now name.now)) }
    ensures stands { IfOk result (λ o. StandsAs store.now.entries kind space.now name.now o.now) }
{
    match object_at(store, kind, space, name) {
        Some(object) => Ok(object),
        None => Err(Stop::Refused(Refusal::NotFound {
            kind,
            name: Text::new(alloc, name)?,
        })),
    }
}

/// Nothing where no object is found, and else that one of the name stands.
pub(crate) fn not_there(
    alloc: Global,
    kind: Kind,
    name: &str,
    found: Option<&Object>,
) -> Result<(), Stop<Refusal>>
    ensures { Comes result (spec.not_there kind name.now (option_copied found.entry)) }
{
    match found {
        None => Ok(()),
        Some(_) => Err(Stop::Refused(Refusal::AlreadyExists {
            kind,
            name: Text::new(alloc, name)?,
        })),
    }
}
