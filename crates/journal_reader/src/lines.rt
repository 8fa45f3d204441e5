//! Lines of entries.
ghost use Rattle.std.specs.Prelude.{◌≡◌, ◌++◌, List, codes, Some, IfOk, IfSome, IsUtf8};
ghost use Rattle.resource_codec.specs.Reading.{Member};
ghost use Rattle.resource_codec.specs.Written.{object_of};
ghost use Rattle.manifest_intake.specs.Bodies.{IsBody};
ghost use Rattle.control_rules.specs.Slots.{ObjectEntry};
ghost use Rattle.journal_text.specs.Lines.{line_of};
ghost use Rattle.journal_text.specs.Texts.{line_bytes};
ghost use Rattle.journal_text.specs.Reads.{IsLegible};
ghost use Rattle.journal_reader.specs.Answers.{Reads};
ghost use Rattle.journal_reader.specs.Deeds.{IsGoodDeed, SaysLine};
ghost use Rattle.journal_reader.specs.Lines.{IsSaid, Finds, HasForm};

use crate::deeds::{Line, line_in};
use crate::error::ReadError;
use crate::members::{json_in, object};
use crate::said::is_said;
use std::alloc::{AllocError, Global};

/// What the members of a line say.
fn line_of_members(alloc: Global, bytes: &[u8]) -> Result<Line, ReadError>
    ensures utf8 { IfOk result (λ _. IsUtf8 bytes.now) }
    ensures good { IfOk result (λ line. IsGoodDeed line.deed) }
    ensures found { (members : List Member) (line : Line)
        → IsBody bytes.now (Some (object_of members)) → SaysLine members line → Reads result line }
{
    let json = json_in(alloc, bytes)?;
    let members = object(&json)?;
    line_in(alloc, members)
}

/// What the line of an entry says, given without its line feed: these very bytes say it.
///
/// Nothing is read of bytes that aren't exactly a line of one of the forms, nor of a put whose manifest isn't good.
pub fn read_line(alloc: Global, line: &[u8]) -> Result<Option<Line>, AllocError>
    ensures said { IfOk result (λ found. IfSome found (IsSaid line.now)) }
    // What a client put is accepted, in a namespace that is a label.
    ensures good { IfOk result (λ found. IfSome found (λ l. IsGoodDeed l.deed)) }
    // Of each entry that has the line it says what it is; so where nothing is read, no entry has the line.
    ensures found { (e : ObjectEntry) → IsLegible e → HasForm e
        → line_bytes (line_of e) ≡ line.now ++ codes "\n" → IfOk result (Finds e) }
{
    let found = match line_of_members(alloc, line) {
        Ok(found) => found,
        Err(ReadError::Refused) => return Ok(None),
        Err(ReadError::Memory) => return Err(AllocError),
    };
    let is_same = is_said(alloc, &found, line)?;
    if is_same { Ok(Some(found)) } else { Ok(None) }
}
