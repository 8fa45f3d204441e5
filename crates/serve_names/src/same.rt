//! Equal bytes.
ghost use Rattle.std.specs.Prelude.{◌≡◌, ◌↔◌, true};

pub(crate) fn is_same(bytes: &[u8], others: &[u8]) -> bool
    ensures { (result ≡ true) ↔ (bytes.now ≡ others.now) }
{
    bytes == others
}
