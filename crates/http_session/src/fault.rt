//! The refusal of a head.
ghost use Rattle.std.specs.Prelude.{◌≡◌, ◌≤◌, length};
ghost use Rattle.http_session.specs.Reply.{fault_body, fault_code, IsReplyCode};

use crate::report::HeadFault;

/// The status code of a refusal.
pub(crate) fn code_of(fault: HeadFault) -> u16
    ensures code { result ≡ fault_code fault }
    ensures valid { IsReplyCode result }
{
    match fault {
        HeadFault::Malformed => 400,
        HeadFault::HeadTooLarge => 431,
        HeadFault::BadLength => 400,
        HeadFault::TransferEncoding => 501,
        HeadFault::BodyTooLarge => 413,
    }
}

/// The body of a refusal: a Status of failure, as JSON.
pub(crate) fn body_of(fault: HeadFault) -> &'static [u8]
    ensures { result.now ≡ fault_body fault }
{
    match fault {
        HeadFault::Malformed => {
            br#"{"apiVersion":"v1","code":400,"kind":"Status","message":"the head is malformed","reason":"BadRequest","status":"Failure"}"#
        }
        HeadFault::HeadTooLarge => {
            br#"{"apiVersion":"v1","code":431,"kind":"Status","message":"the head is too large","reason":"HeadTooLarge","status":"Failure"}"#
        }
        HeadFault::BadLength => {
            br#"{"apiVersion":"v1","code":400,"kind":"Status","message":"the length of the body is malformed","reason":"BadRequest","status":"Failure"}"#
        }
        HeadFault::TransferEncoding => {
            br#"{"apiVersion":"v1","code":501,"kind":"Status","message":"transfer encodings are not supported","reason":"NotImplemented","status":"Failure"}"#
        }
        HeadFault::BodyTooLarge => {
            br#"{"apiVersion":"v1","code":413,"kind":"Status","message":"the body is too large","reason":"RequestEntityTooLarge","status":"Failure"}"#
        }
    }
}
