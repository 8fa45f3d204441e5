//! Writing replies. The head is built in room that is there already, so that this takes no memory.
ghost use Rattle.std.specs.Prelude.{◌≡◌, ◌++◌, true, length};
ghost use Rattle.serve_io.specs.Whole.{Sends};
ghost use Rattle.http_session.specs.Reply.{head_bytes, fault_bytes, reply_body, IsReplyCode};
ghost use Rattle.http_session.specs.Pieces.{WritesPieces, reply_pieces, fault_pieces};

use crate::fault::{body_of, code_of};
use crate::message::{Allow, Reply};
use crate::report::HeadFault;
use crate::room::Room;
use serve_io::{Sink, write_whole};

/// Writes a head, and then a body. False where a write failed.
fn send_both<K: Sink>(sink: &mut K, head: &[u8], body: &[u8]) -> bool
    ensures sends { Sends (K.taken sink.old) (K.taken sink.new) (K.faults sink.old) (K.faults sink.new) (head.now ++ body.now) result }
    ensures pieces { WritesPieces K.writes sink.old (record { head = head.now; body = body.now }) result sink.new }
    ensures calm { result ≡ true → K.faults sink.new ≡ K.faults sink.old }
{
    write_whole(sink, head) && write_whole(sink, body)
}

/// Writes the refusal of a head. False where a write failed.
#[tactic(auto, unfolding(crate::specs::Reply::fault_bytes))]
pub(crate) fn send_fault<K: Sink>(room: &mut Room, sink: &mut K, fault: HeadFault) -> bool
    ensures sends { Sends (K.taken sink.old) (K.taken sink.new) (K.faults sink.old) (K.faults sink.new) (fault_bytes fault) result }
    ensures pieces { WritesPieces K.writes sink.old (fault_pieces fault) result sink.new }
    ensures calm { result ≡ true → K.faults sink.new ≡ K.faults sink.old }
{
    let body = body_of(fault);
    room.put_head(true, code_of(fault), Allow::None, body.len());
    send_both(sink, room.bytes(), body)
}

/// Writes the reply to a request. False where a write failed.
pub(crate) fn send_reply<K: Sink>(
    room: &mut Room,
    sink: &mut K,
    method: &[u8],
    closes: bool,
    reply: &Reply,
) -> bool
    requires { IsReplyCode reply.now.code }
    ensures sends { Sends (K.taken sink.old) (K.taken sink.new) (K.faults sink.old) (K.faults sink.new)
        (head_bytes closes reply.now.code reply.now.allow (length reply.now.body) ++ reply_body method.now reply.now) result }
    ensures pieces { WritesPieces K.writes sink.old (reply_pieces closes method.now reply.now) result sink.new }
    ensures calm { result ≡ true → K.faults sink.new ≡ K.faults sink.old }
{
    let body = reply.body.as_slice();
    room.put_head(closes, reply.code, reply.allow, body.len());
    if method == b"HEAD".as_slice() {
        write_whole(sink, room.bytes())
    } else {
        send_both(sink, room.bytes(), body)
    }
}
