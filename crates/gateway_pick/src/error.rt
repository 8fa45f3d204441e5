//! Why a body isn't followed.
use std::alloc::AllocError;
use thiserror::Error;

/// Why a gateway doesn't follow a body. It is then as before.
#[derive(Clone, Copy, Debug, PartialEq, Eq, Error)]
pub enum FollowError {
    /// The body isn't readable JSON, or not a poll of Tables, or a Table in it breaks a rule, or its version is less than the
    /// gateway's.
    #[error("the body is no poll of Tables that goes on from the gateway's version")]
    Refused,
    /// Out of memory.
    #[error("out of memory")]
    Memory,
}

impl From<AllocError> for FollowError {
    ghost use Rattle.std.specs.Prelude.{◌≡◌};
    ghost use Rattle.gateway_pick.specs.declared.error.FollowError.TheVariants.{Memory};

    ghost from_gives = { λ _ error. error ≡ Memory };

    fn from(_error: AllocError) -> FollowError {
        FollowError::Memory
    }
}
