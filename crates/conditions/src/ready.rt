//! The fold of conditions to `Ready`.
ghost use Rattle.std.specs.Prelude.{◌≡◌, IfOk};
ghost use Rattle.std.specs.List.{list_any, find};
ghost use Rattle.std.specs.Option.{option_copied};
ghost use Rattle.conditions.specs.Fold.{has_truth, fold_truth, cause_of, reason_of, message_of, fold_of};

use json_tree::{Seq, Text};
use resource_types::{CondName, Condition, Truth};
use std::alloc::{AllocError, Global};

// Whether a part of the list has the truth.
fn is_among(parts: &Seq<Condition>, truth: Truth) -> bool
    ensures { result ≡ list_any (has_truth truth) parts.now }
{
    parts.as_slice().iter().any(|part| part.truth == truth)
}

/// The truth of `Ready`: False where a part is False, else Unknown where a part is Unknown, else True.
///
/// So `Ready` of no parts is True, and a part that is False counts for more than one that isn't known.
pub fn fold_truth(parts: &Seq<Condition>) -> Truth
    ensures { result ≡ fold_truth parts.now }
{
    if is_among(parts, Truth::False) {
        Truth::False
    } else if is_among(parts, Truth::Unknown) {
        Truth::Unknown
    } else {
        Truth::True
    }
}

// The first part with the truth.
fn first_with(parts: &Seq<Condition>, truth: Truth) -> Option<&Condition>
    ensures { option_copied result ≡ find (has_truth truth) parts.now }
{
    for part in parts.as_slice() {
        if part.truth == truth {
            return Some(part);
        }
    }
    None
}

// The part that explains the fold: the first with its truth, or none where that is True.
fn cause_of(parts: &Seq<Condition>) -> Option<&Condition>
    ensures { option_copied result ≡ cause_of parts.now }
{
    match fold_truth(parts) {
        Truth::True => None,
        Truth::False => first_with(parts, Truth::False),
        Truth::Unknown => first_with(parts, Truth::Unknown),
    }
}

fn reason_of(alloc: Global, cause: Option<&Condition>) -> Result<Text, AllocError>
    ensures { IfOk result (λ reason. reason ≡ reason_of (option_copied cause.entry)) }
{
    match cause {
        Some(part) => part.reason.copy(alloc),
        None => Text::new(alloc, ""),
    }
}

fn message_of(alloc: Global, cause: Option<&Condition>) -> Result<Text, AllocError>
    ensures { IfOk result (λ message. message ≡ message_of (option_copied cause.entry)) }
{
    match cause {
        Some(part) => part.message.copy(alloc),
        None => Text::new(alloc, ""),
    }
}

/// The condition `Ready`, with the truth of [`fold_truth`]. Its reason and message are those of the first part with
/// that truth where it isn't True, and empty where it is. It isn't of severity `Info`, and its time is 0 until
/// [`crate::settle_times`] gives it one. All the parts count, so a caller leaves `HasBeenReady` out.
pub fn fold(alloc: Global, parts: &Seq<Condition>) -> Result<Condition, AllocError>
    ensures { IfOk result (λ ready. ready ≡ fold_of parts.now) }
{
    let cause = cause_of(parts);
    Ok(Condition {
        name: CondName::Ready,
        truth: fold_truth(parts),
        reason: reason_of(alloc, cause)?,
        message: message_of(alloc, cause)?,
        info: false,
        since: 0,
    })
}
