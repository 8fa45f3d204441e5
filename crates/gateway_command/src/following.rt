//! Polls as lines.
ghost use Rattle.std.specs.Prelude.{◌≡◌, ℕ, [], ◌∷◌, ◌++◌, List, IfOk, IsErrOf, OnOk};
ghost use Rattle.gateway_command.specs.Lines.{HasRead, IsRefusedIn, FollowsLine, IsRefused};

use gateway_pick::{FollowError, Gateway};
use std::alloc::AllocError;

/// The most bytes of a line.
const MOST_BYTES: usize = 8_388_608;

/// Follows the poll of a line. An empty line is passed over.
pub(crate) fn follow_line(gateway: &mut Gateway, line: &[u8]) -> Result<(), FollowError>
    ensures ok { OnOk result (FollowsLine gateway.old line.now gateway.new) }
    ensures refused { IsErrOf result FollowError.Refused → IsRefused line.now gateway.old }
{
    if line.is_empty() {
        return Ok(());
    }
    gateway.follow(line)
}

/// Adds a byte to the line.
fn add(line: &mut Vec<u8>, byte: u8) -> Result<(), AllocError>
    ensures { OnOk result (line.new.items ≡ line.old.items ++ byte ∷ []) }
{
    line.push(byte)?;
    Ok(())
}

/// Takes the next byte of the input: it goes on with the line, or ends it, and then the line's poll is followed.
fn take_byte(gateway: &mut Gateway, line: &mut Vec<u8>, byte: u8) -> Result<(), FollowError>
    ensures ok { (bytes : List ℕ) → HasRead bytes gateway.old line.old.items
        → OnOk result (HasRead (bytes ++ byte ∷ []) gateway.new line.new.items) }
    ensures refused { (bytes : List ℕ) → HasRead bytes gateway.old line.old.items
        → IsErrOf result FollowError.Refused → IsRefusedIn (bytes ++ byte ∷ []) }
{
    if byte == b'\n' {
        follow_line(gateway, line.as_slice())?;
        line.clear();
        return Ok(());
    }
    if line.len() >= MOST_BYTES {
        return Err(FollowError::Refused);
    }
    add(line, byte)?;
    Ok(())
}

/// Takes the next bytes of the input.
pub(crate) fn take_bytes(
    gateway: &mut Gateway,
    line: &mut Vec<u8>,
    piece: &[u8],
) -> Result<(), FollowError>
    ensures ok { (bytes : List ℕ) → HasRead bytes gateway.old line.old.items
        → OnOk result (HasRead (bytes ++ piece.now) gateway.new line.new.items) }
    ensures refused { (bytes : List ℕ) → HasRead bytes gateway.old line.old.items
        → IsErrOf result FollowError.Refused → IsRefusedIn (bytes ++ piece.now) }
{
    for byte in piece {
        take_byte(gateway, line, *byte)?;
    }
    Ok(())
}
