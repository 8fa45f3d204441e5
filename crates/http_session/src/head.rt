//! One head of a request.
ghost use Rattle.std.specs.Prelude.{◌≡◌, ◌≤◌, length, take, map, All, MatchOption, IfSome};
ghost use Rattle.httparse.specs.Grammar.{RequestHead};
ghost use Rattle.httparse.specs.Spans.{header_bytes, IsHeaderWithin};
ghost use Rattle.http_session.specs.Stream.{ParsesTo};
ghost use Rattle.http_session.specs.Head.{Describes, IsHeadIn};

use crate::fields::{body_of, connection_closes};
use crate::report::HeadFault;
use httparse::Status;
use httparse::spans::{EMPTY_HEADER_SPAN, Span, parse_request};

/// The most fields of a head.
const MOST_FIELDS: usize = 64;

/// What is read of a head.
#[derive(Clone, Copy)]
pub(crate) struct Head {
    pub method: Span,
    pub target: Span,
    pub closes: bool,
    pub body: Result<usize, HeadFault>,
}

/// Reads the bytes as one head, or says that they are none.
pub(crate) fn read_head(bytes: &[u8]) -> Option<Head>
    ensures head { MatchOption result (ParsesTo bytes.now None) (λ read. (head : RequestHead) × Describes bytes.now read head) }
    ensures within { IfSome result (IsHeadIn bytes.now) }
{
    let mut headers = [EMPTY_HEADER_SPAN; MOST_FIELDS];
    match parse_request(bytes, &mut headers) {
        Ok(Status::Complete(head)) if head.len == bytes.len() => {
            let fields = &headers[..head.headers];
            Some(Head {
                method: head.method,
                target: head.path,
                closes: head.version == 0 || connection_closes(bytes, fields),
                body: body_of(bytes, fields),
            })
        }
        _ => None,
    }
}
