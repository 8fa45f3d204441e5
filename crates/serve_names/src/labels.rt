//! Labels, of which names and domains are made.
ghost use Rattle.std.specs.Prelude.{◌≡◌};
ghost use Rattle.std.specs.List.{list_all};
ghost use Rattle.serve_names.specs.Labels as spec;

use crate::counts::is_digit;

fn is_lower(byte: u8) -> bool
    ensures { result ≡ spec.is_lower byte }
{
    byte >= b'a' && byte <= b'z'
}

fn is_label_byte(byte: u8) -> bool
    ensures { result ≡ spec.is_label_byte byte }
{
    is_lower(byte) || is_digit(byte) || byte == b'-'
}

fn has_label_bytes(bytes: &[u8]) -> bool
    ensures { result ≡ list_all spec.is_label_byte bytes.now }
{
    bytes.iter().all(|byte| is_label_byte(*byte))
}

/// Whether the bytes are a label of at most `most` bytes: at least one byte, each a lower-case
/// letter, a digit or `-`, of which the first is a letter and the last isn't `-`.
#[tactic(auto, unfolding(crate::specs::Labels::is_label_of))]
pub fn is_label(bytes: &[u8], most: u64) -> bool
    ensures { result ≡ spec.is_label_of bytes.now most }
{
    if bytes.is_empty() || bytes.len() as u64 > most {
        return false;
    }
    if !has_label_bytes(bytes) {
        return false;
    }
    if !is_lower(bytes[0]) {
        return false;
    }
    bytes[bytes.len() - 1] != b'-'
}
