//! Versions in queries.
ghost use Rattle.std.specs.Prelude.{◌≡◌, IsTrue};
ghost use Rattle.std.specs.List.{list_all};
ghost use Rattle.std.specs.Str.Parse.{digits_value};
ghost use Rattle.serve_names.specs.Counts as counts;
ghost use Rattle.api_paths.specs.Queries as queries;

/// The most digits of a version, so that each is below 2 ^ 64.
const MOST_DIGITS: usize = 19;

/// Whether it is decimal digits, none or up to 19.
pub(crate) fn is_version(value: &[u8]) -> bool
    ensures { result ≡ queries.is_version value.now }
{
    value.len() <= MOST_DIGITS && has_digits(value)
}

/// The number that the digits write, and 0 for none.
pub(crate) fn version_of(value: &[u8]) -> u64
    requires { IsTrue (queries.is_version value.now) }
    ensures { result ≡ digits_value 10 value.now }
{
    let mut number = 0u64;
    for byte in value {
        number = number * 10 + (*byte - b'0') as u64;
    }
    number
}

fn has_digits(bytes: &[u8]) -> bool
    ensures { result ≡ list_all counts.is_digit bytes.now }
{
    bytes.iter().all(|byte| is_digit(*byte))
}

fn is_digit(byte: u8) -> bool
    ensures { result ≡ counts.is_digit byte }
{
    byte >= b'0' && byte <= b'9'
}
