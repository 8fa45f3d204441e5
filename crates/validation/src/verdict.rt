//! One line of the table of rules.
ghost use Rattle.std.specs.Prelude.{◌≡◌};
ghost use Rattle.validation.specs.Rules.{line, verdict_of};

use crate::places::{Invalid, Place, Rule};

/// What a rule says at a place, by whether it is kept there.
#[tactic(auto, unfolding(crate::specs::Rules::verdict_of))]
pub(crate) fn keep(place: Place, rule: Rule, is_kept: bool) -> Result<(), Invalid>
    ensures { result ≡ verdict_of (line place rule is_kept) }
{
    if is_kept {
        Ok(())
    } else {
        Err(Invalid { place, rule })
    }
}
