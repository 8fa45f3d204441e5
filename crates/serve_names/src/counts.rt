//! Counts: numbers in decimal digits.
ghost use Rattle.std.specs.Prelude.{◌≡◌};
ghost use Rattle.std.specs.List.{list_all};
ghost use Rattle.serve_names.specs.Counts as spec;

/// The most digits that a count has.
pub(crate) const MOST_DIGITS: usize = 10;

pub(crate) fn is_digit(byte: u8) -> bool
    ensures { result ≡ spec.is_digit byte }
{
    byte >= b'0' && byte <= b'9'
}

fn has_digits(bytes: &[u8]) -> bool
    ensures { result ≡ list_all spec.is_digit bytes.now }
{
    bytes.iter().all(|byte| is_digit(*byte))
}

/// The number that 1 to 10 decimal digits write; zeros may stand before it.
///
/// `None` for all other bytes.
pub fn read_count(bytes: &[u8]) -> Option<u64>
    ensures { result ≡ spec.count_of bytes.now }
{
    if bytes.is_empty() || bytes.len() > MOST_DIGITS || !has_digits(bytes) {
        return None;
    }
    let mut number = 0u64;
    for byte in bytes {
        number = number * 10 + (*byte - b'0') as u64;
    }
    Some(number)
}
