//! Texts cut at a byte.
ghost use Rattle.std.specs.Prelude.{◌≡◌, ◌==◌, option_map, position};
ghost use Rattle.api_paths.specs.Paths as paths;
ghost use Rattle.api_paths.specs.Queries.{name_of, value_of};
ghost use Rattle.api_paths.specs.Route.{path_of, query_of};
ghost use Rattle.api_paths.specs.Seen.{parts_seen};

/// What stands behind a front, where the text begins with it.
pub(crate) fn behind<'a>(front: &str, text: &'a str) -> Option<&'a str>
    ensures { option_map (λ rest. rest.now) result ≡ paths.behind front.now text.now }
{
    text.strip_prefix(front)
}

/// The two parts round the first slash, where there is one.
pub(crate) fn at_slash(text: &str) -> Option<(&str, &str)>
    ensures { parts_seen result ≡ paths.at_slash text.now }
{
    text.split_once('/')
}

/// The path and the query of a target.
pub(crate) fn at_mark(target: &str) -> (&str, &str)
    ensures path { result.0.now ≡ path_of target.now }
    ensures query { result.1.now ≡ query_of target.now }
{
    match target.split_once('?') {
        Some(parts) => parts,
        None => (target, ""),
    }
}

/// The name of a part of a query.
pub(crate) fn name_of(part: &[u8]) -> &[u8]
    ensures { result.now ≡ name_of part.now }
{
    match first_equals(part) {
        Some(at) => &part[..at],
        None => part,
    }
}

/// The value of a part of a query.
pub(crate) fn value_of(part: &[u8]) -> &[u8]
    ensures { result.now ≡ value_of part.now }
{
    match first_equals(part) {
        Some(at) => &part[at + 1..],
        None => &[],
    }
}

fn first_equals(part: &[u8]) -> Option<usize>
    ensures { result ≡ position (λ b. b == 61) part.now }
{
    part.iter().position(|byte| *byte == b'=')
}
