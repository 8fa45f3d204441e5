//! Texts that stand for absent ones.
ghost use Rattle.std.specs.Prelude.{◌≡◌};
ghost use Rattle.validation.specs.Defaults.{is_empty};

use json_tree::Text;

pub(crate) fn is_empty(text: &Text) -> bool
    ensures { result ≡ is_empty text.now }
{
    text.is_empty()
}
