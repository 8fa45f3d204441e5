//! What a request comes to.
ghost use Rattle.std.specs.Prelude.{◌≡◌, IfOk};
ghost use Rattle.api_outcomes.specs.Outcomes as spec;
ghost use Rattle.api_outcomes.specs.Outcomes.{IsFit};
ghost use Rattle.resource_types.specs.Lookups.{Journal};

use crate::refusal::Refusal;
use crate::replies::refused;
use answers::Stop;
use http_session::Reply;
use resource_types::Object;
use std::alloc::{AllocError, Global};
use version_store::Plan;

/// A reply, and the write that its request makes, if any.
#[derive(Drop)]
pub struct Outcome {
    /// The reply.
    pub reply: Reply,
    /// The write, which is made once the reply is there.
    pub plan: Option<Plan<Object>>,
}

impl Outcome {
    /// A reply and no write.
    pub fn only(reply: Reply) -> Outcome
        ensures { result ≡ spec.only reply }
    {
        Outcome { reply, plan: None }
    }
}

/// The outcome of a call: of one that is refused, its refusal as a reply.
pub fn reply_to_call(
    alloc: Global,
    called: Result<Outcome, Stop<Refusal>>,
) -> Result<Outcome, AllocError>
    ensures answer { IfOk result (spec.IsReplyTo called) }
    ensures fits { (journal : Journal) → IfOk called (IsFit journal) → IfOk result (IsFit journal) }
{
    match called {
        Ok(outcome) => Ok(outcome),
        Err(Stop::Refused(refusal)) => Ok(Outcome::only(refused(alloc, &refusal)?)),
        Err(Stop::Memory) => Err(AllocError),
    }
}
