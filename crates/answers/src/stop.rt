//! Being refused, or out of memory.
ghost use Rattle.std.specs.Prelude.{◌≢◌, IfErr};
ghost use Rattle.answers.specs.Answers.{Comes, requires_that};

use std::alloc::AllocError;

/// Why a call comes to no answer of its own.
#[derive(Clone, Copy, Debug, Drop, PartialEq, Eq)]
pub enum Stop<R> {
    /// It is refused, for this reason.
    Refused(R),
    /// Out of memory.
    Memory,
}

impl<R> From<AllocError> for Stop<R> {
    ghost use Rattle.std.specs.Prelude.{◌≡◌};
    ghost use Rattle.answers.specs.declared.stop.Stop.TheVariants.{Memory};

    ghost from_gives = { λ _ e. e ≡ Memory };

    fn from(_e: AllocError) -> Stop<R> {
        Stop::Memory
    }
}

/// Nothing where the test holds, and else the refusal.
pub fn require<R: Drop>(holds: bool, refusal: R) -> Result<(), Stop<R>>
    ensures answer { Comes result (requires_that holds refusal) }
    ensures sure { IfErr result (λ e. e ≢ Stop.Memory) }
{
    if holds {
        Ok(())
    } else {
        Err(Stop::Refused(refusal))
    }
}
