//! Texts that may be empty.
ghost use Rattle.std.specs.Prelude.{◌≡◌};
ghost use Rattle.resource_types.specs.Lookups.{is_empty};

use json_tree::Text;

/// Whether the text is empty.
pub fn is_blank(text: &Text) -> bool
    ensures { result ≡ is_empty text.now }
{
    text.is_empty()
}
