//! What queries ask. A query is cut at each `&`, and a part of it at its first `=`.
ghost use Rattle.std.specs.Prelude.{◌≡◌, IsTrue, option_copied, find};
ghost use Rattle.std.specs.List.{list_all};
ghost use Rattle.api_paths.specs.Queries as queries;

use crate::cuts::{name_of, value_of};
use crate::versions::{is_version, version_of};

/// Whether the query asks for a dry run.
pub(crate) fn has_dry_run(query: &[u8]) -> bool
    ensures { result ≡ queries.has_dry_run query.now }
{
    query
        .split(|byte| *byte == b'&')
        .any(|part| is_dry_run(part))
}

/// Whether it is a query of a list: without `watch` or `resourceVersion` twice, and with values that they may have.
pub(crate) fn is_good_list(query: &[u8]) -> bool
    ensures { result ≡ queries.is_good_list query.now }
{
    count_named(b"watch", query) <= 1
        && count_named(b"resourceVersion", query) <= 1
        && has_good_watches(query)
        && has_good_versions(query)
}

/// Whether the query has a `watch` that is on.
pub(crate) fn is_watching(query: &[u8]) -> bool
    ensures { result ≡ queries.is_watching query.now }
{
    query
        .split(|byte| *byte == b'&')
        .any(|part| is_watch_on(part))
}

/// The version of a good query, and 0 where there is none.
pub(crate) fn version_after(query: &[u8]) -> u64
    requires { IsTrue (queries.is_good_list query.now) }
    ensures { result ≡ queries.version_after query.now }
{
    match first_named(b"resourceVersion", query) {
        Some(part) => version_of(value_of(part)),
        None => 0,
    }
}

fn is_named(name: &[u8], part: &[u8]) -> bool
    ensures { result ≡ queries.is_named name.now part.now }
{
    name_of(part) == name
}

fn count_named(name: &[u8], query: &[u8]) -> usize
    ensures { result ≡ queries.count_named name.now query.now }
{
    query
        .split(|byte| *byte == b'&')
        .filter(|part| is_named(name, part))
        .count()
}

fn first_named<'a>(name: &[u8], query: &'a [u8]) -> Option<&'a [u8]>
    ensures { option_copied result ≡ find (queries.is_named name.now) (queries.parts_of query.now) }
{
    query
        .split(|byte| *byte == b'&')
        .find(|part| is_named(name, part))
}

fn is_dry_run(part: &[u8]) -> bool
    ensures { result ≡ queries.is_dry_run part.now }
{
    is_named(b"dryRun", part) && !value_of(part).is_empty()
}

fn is_on(value: &[u8]) -> bool
    ensures { result ≡ queries.is_on value.now }
{
    value == b"1".as_slice() || value == b"true".as_slice()
}

fn is_off(value: &[u8]) -> bool
    ensures { result ≡ queries.is_off value.now }
{
    value == b"0".as_slice() || value == b"false".as_slice()
}

fn is_watch_on(part: &[u8]) -> bool
    ensures { result ≡ queries.is_watch_on part.now }
{
    is_named(b"watch", part) && is_on(value_of(part))
}

fn has_good_watches(query: &[u8]) -> bool
    ensures { result ≡ list_all queries.is_good_watch (queries.parts_of query.now) }
{
    query
        .split(|byte| *byte == b'&')
        .all(|part| is_good_watch(part))
}

fn is_good_watch(part: &[u8]) -> bool
    ensures { result ≡ queries.is_good_watch part.now }
{
    !is_named(b"watch", part) || is_on(value_of(part)) || is_off(value_of(part))
}

fn has_good_versions(query: &[u8]) -> bool
    ensures { result ≡ list_all queries.is_good_version (queries.parts_of query.now) }
{
    query
        .split(|byte| *byte == b'&')
        .all(|part| is_good_version(part))
}

fn is_good_version(part: &[u8]) -> bool
    ensures { result ≡ queries.is_good_version part.now }
{
    !is_named(b"resourceVersion", part) || is_version(value_of(part))
}
