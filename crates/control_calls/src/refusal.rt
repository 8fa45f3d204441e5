//! Why a control call is refused.
ghost use Rattle.std.specs.Prelude.{◌≡◌, ◌++◌, codes, decimal, string_bytes, IfOk};
ghost use Rattle.http_session.specs.Reply.{IsReply};
ghost use Rattle.control_bodies.specs.Paths.{path_bytes};
ghost use Rattle.control_calls.specs.Refusals as spec;

use api_outcomes::{Refusal, failed};
use control_bodies::{Field, path_text};
use http_session::Reply;
use std::alloc::{AllocError, Global};

/// Why a control call is refused. The variants are examined in the order that each call says.
#[derive(Debug, Drop)]
pub enum ControlRefusal {
    /// As a call of a client is: no Revision of the name stands.
    Call(Refusal),
    /// The body has not the shape of the call's: this field is the first that is wrong.
    WrongShape(Field),
    /// The clock stands later, at this moment.
    ClockBack { now: u64 },
}

impl ControlRefusal {
    /// The code of the reply.
    fn code(&self) -> u16
        ensures { result ≡ spec.code_of self.now }
    {
        match self {
            ControlRefusal::Call(refusal) => refusal.code(),
            ControlRefusal::WrongShape(_) => 400,
            ControlRefusal::ClockBack { .. } => 422,
        }
    }

    /// The reason in one word.
    fn reason(&self) -> &'static str
        ensures { result.now ≡ spec.reason_of self.now }
    {
        match self {
            ControlRefusal::Call(refusal) => refusal.reason(),
            ControlRefusal::WrongShape(_) => "BadRequest",
            ControlRefusal::ClockBack { .. } => "Invalid",
        }
    }

    /// The message for a reader.
    fn message(&self, alloc: Global) -> Result<String, AllocError>
        ensures { IfOk result (λ s. string_bytes s ≡ spec.message_of self.now) }
    {
        match self {
            ControlRefusal::Call(refusal) => refusal.message(alloc),
            ControlRefusal::WrongShape(field) => wrong_shape(alloc, *field),
            ControlRefusal::ClockBack { now } => clock_back(alloc, *now),
        }
    }

    /// The reply to a call that is refused.
    pub fn reply(&self, alloc: Global) -> Result<Reply, AllocError>
        ensures value { IfOk result (λ r. r ≡ spec.refused self.now) }
        ensures reply { IfOk result IsReply }
    {
        let message = self.message(alloc)?;
        failed(alloc, self.code(), self.reason(), message.as_str())
    }
}

fn wrong_shape(alloc: Global, field: Field) -> Result<String, AllocError>
    ensures { IfOk result (λ s. string_bytes s ≡ codes "wrong shape at " ++ path_bytes field) }
{
    let path = path_text(alloc, field)?;
    let path = path.as_str();
    format!(in alloc; "wrong shape at {path}")
}

fn clock_back(alloc: Global, now: u64) -> Result<String, AllocError>
    ensures { IfOk result (λ s. string_bytes s ≡ codes "now: the clock stands at " ++ decimal now) }
{
    format!(in alloc; "now: the clock stands at {now}")
}
