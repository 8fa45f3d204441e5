//! Writing the whole of some bytes.
ghost use Rattle.std.specs.Prelude.{◌≡◌, true, length};
ghost use Rattle.serve_io.specs.Whole.{Sends, WritesRest};

use crate::sink::{Sink, WriteAnswer};

/// Writes all the bytes, and gives each write the whole rest of them. False where a write failed, which ends it.
pub fn write_whole<K: Sink>(sink: &mut K, bytes: &[u8]) -> bool
    ensures sends { Sends (K.taken sink.old) (K.taken sink.new) (K.faults sink.old) (K.faults sink.new) bytes.now result }
    ensures calm { result ≡ true → K.faults sink.new ≡ K.faults sink.old }
    ensures rest { WritesRest K.writes sink.old bytes.now result sink.new }
{
    let mut at = 0;
    while at < bytes.len() {
        match sink.write(&bytes[at..]) {
            WriteAnswer::Took(count) => at += count,
            WriteAnswer::Failed => return false,
        }
    }
    true
}
