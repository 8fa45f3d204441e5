//! Versions of polls.
ghost use Rattle.std.specs.Prelude.{◌≡◌};
ghost use Rattle.std.specs.List.{list_all};
ghost use Rattle.serve_names.specs.Counts as counts;
ghost use Rattle.gateway_pick.specs.Reading as spec;

/// The most digits of a version, so that each is below 2 ^ 64.
const MOST_DIGITS: usize = 19;

fn is_digit(byte: u8) -> bool
    ensures { result ≡ counts.is_digit byte }
{
    byte >= b'0' && byte <= b'9'
}

fn has_digits(bytes: &[u8]) -> bool
    ensures { result ≡ list_all counts.is_digit bytes.now }
{
    bytes.iter().all(|byte| is_digit(*byte))
}

/// The number that 1 to 19 decimal digits write.
pub(crate) fn version_of(bytes: &[u8]) -> Option<u64>
    ensures { result ≡ spec.version_of bytes.now }
{
    if bytes.is_empty() || bytes.len() > MOST_DIGITS || !has_digits(bytes) {
        return None;
    }
    let mut number = 0u64;
    for byte in bytes {
        number = number * 10 + (*byte - b'0') as u64;
    }
    Some(number)
}
