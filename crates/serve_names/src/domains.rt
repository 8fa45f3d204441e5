//! Domains: labels joined by dots.
ghost use Rattle.std.specs.Prelude.{◌≡◌};
ghost use Rattle.serve_names.specs.Labels as spec;

use crate::labels::is_label;

/// The longest label of a domain, in bytes.
const LONGEST_LABEL: u64 = 63;

/// The longest domain, in bytes.
const LONGEST_DOMAIN: usize = 100;

fn has_labels(bytes: &[u8]) -> bool
    ensures { result ≡ spec.has_labels bytes.now }
{
    bytes
        .split(|byte| *byte == b'.')
        .all(|part| is_label(part, LONGEST_LABEL))
}

/// Whether the bytes are one or more labels of at most 63 bytes joined by `.`, at most 100 bytes in
/// all.
#[tactic(auto, unfolding(crate::specs::Labels::is_domain_of))]
pub fn is_domain(bytes: &[u8]) -> bool
    ensures { result ≡ spec.is_domain_of bytes.now }
{
    bytes.len() <= LONGEST_DOMAIN && has_labels(bytes)
}
