//! The calls of the API.
use http_session::Allow;
use resource_types::{ClientKind, Kind};

/// A call of the API, by what its method and its target say. `space` is a namespace, a label of at most 63 bytes, `name` is
/// one segment of the path that isn't empty, and `after` is the version behind which changes are told, 0 where none is given.
#[derive(Clone, Copy, Debug, PartialEq, Eq)]
pub enum Call<'a> {
    /// To list the objects of a kind in a namespace. For Tables `space` is empty, and all namespaces are meant.
    List {
        kind: Kind,
        space: &'a str,
    },
    /// To list what changed among them after a version.
    Poll {
        kind: Kind,
        space: &'a str,
        after: u64,
    },
    /// To create an object in a namespace.
    Create {
        kind: ClientKind,
        space: &'a str,
    },
    /// To read an object.
    Read {
        kind: Kind,
        space: &'a str,
        name: &'a str,
    },
    /// To put a manifest in place of an object's.
    Replace {
        kind: ClientKind,
        space: &'a str,
        name: &'a str,
    },
    /// To change an object by a merge patch (RFC 7396).
    Patch {
        kind: ClientKind,
        space: &'a str,
        name: &'a str,
    },
    /// To remove an object.
    Remove {
        kind: Kind,
        space: &'a str,
        name: &'a str,
    },
    /// To report the health of a Revision.
    Report,
    /// To set the clock.
    SetClock,
    /// To let one controller take a step.
    Step,
    /// To let the controllers work until nothing is left to do.
    Settle,
    /// To count the objects.
    Summary,
}

/// Why a method and a target make no call. The variants are examined in this order.
#[derive(Clone, Copy, Debug, PartialEq, Eq)]
pub enum PathError {
    /// The path names nothing.
    NoSuchPath,
    /// What the path names hasn't this method.
    NoSuchMethod {
        /// The methods that it has.
        allow: Allow,
    },
    /// A part `dryRun` has a value; or on a GET of a list `watch` or `resourceVersion` is given twice, `watch` is none
    /// of `1`, `true`, `0` and `false`, or `resourceVersion` is neither empty nor 1 to 19 decimal digits.
    BadQuery,
}
