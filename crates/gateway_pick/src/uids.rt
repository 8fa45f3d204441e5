//! Uids of rows.
ghost use Rattle.std.specs.Prelude.{◌≡◌};
ghost use Rattle.gateway_pick.specs.Reading as spec;

use serve_names::read_uid;

/// The uid that the bytes write.
pub(crate) fn uid_of(bytes: &[u8]) -> Option<u64>
    ensures { result ≡ spec.uid_of bytes.now }
{
    read_uid(bytes)
}
