//! Headers.
ghost use Rattle.std.specs.Prelude.{◌≡◌, ◌↔◌, ◌++◌, ℕ, List, codes, IsTrue, Some, IfOk, IfSome, IsUtf8};
ghost use Rattle.json_tree.specs.declared.value.Json.TheViews.{out-Json};
ghost use Rattle.resource_codec.specs.Reading.{Member, under};
ghost use Rattle.resource_codec.specs.Written.{object_of};
ghost use Rattle.manifest_intake.specs.Bodies.{IsBody};
ghost use Rattle.control_rules.specs.declared.settings.Settings.{Settings};
ghost use Rattle.journal_text.specs.Lines.{header_of};
ghost use Rattle.journal_text.specs.Texts.{line_bytes};
ghost use Rattle.journal_text.specs.Reads.{line_text, HasShortNumbers, CanHead};
ghost use Rattle.journal_reader.specs.Answers.{Reads, Gives};
ghost use Rattle.journal_reader.specs.Headers as spec;

use crate::error::ReadError;
use crate::members::{json_in, number, object, text, under};
use control_rules::{GcSettings, Settings};
use journal_text::header_line;
use json_tree::{Json, Members, Text, write_json};
use serve_io::LAST_MOMENT;
use std::alloc::{AllocError, Global};

/// What a header says.
#[derive(Debug, Drop)]
pub struct Header {
    /// The settings of the plane.
    pub settings: Settings,
    /// The moment of the plane, in seconds from 1970.
    pub moment: u64,
}

/// A number of the settings; any text is read as one that doesn't count.
fn count_under(members: &Members, name: &str) -> Result<Option<u64>, ReadError>
    ensures { Gives (λ n. n) result (spec.count (under name.now members.now.entries)) }
{
    match under(members, name) {
        Some(Json::Nat(number)) => Ok(Some(*number)),
        Some(Json::Str(_)) => Ok(None),
        _ => Err(ReadError::Refused),
    }
}

/// When Revisions are collected.
#[tactic(auto, unfolding(crate::specs::Headers::gc_in))]
fn gc_in(members: &Members) -> Result<GcSettings, ReadError>
    ensures { Gives (λ g. g) result (spec.gc_in members.now.entries) }
{
    Ok(GcSettings {
        create: count_under(members, "retainCreate")?,
        active: count_under(members, "retainActive")?,
        least: number(members, "minNonActive")?,
        most: count_under(members, "maxNonActive")?,
    })
}

/// What a header says, by its members.
#[tactic(auto, unfolding(crate::specs::Headers::header_in))]
fn header_in(alloc: Global, members: &Members) -> Result<Header, ReadError>
    ensures { Gives (λ h. h) result (spec.header_in members.now.entries) }
{
    let domain = text(members, "domain")?;
    let gc = gc_in(members)?;
    let moment = number(members, "now")?;
    let domain = Text::new(alloc, domain.as_str())?;
    Ok(Header {
        settings: Settings { domain, gc },
        moment,
    })
}

/// The same by its bytes.
fn header_of_bytes(alloc: Global, bytes: &[u8]) -> Result<Header, ReadError>
    ensures utf8 { IfOk result (λ _. IsUtf8 bytes.now) }
    ensures found { (members : List Member) (header : Header)
        → IsBody bytes.now (Some (object_of members)) → spec.header_in members ≡ Some header → Reads result header }
{
    let json = json_in(alloc, bytes)?;
    let members = object(&json)?;
    header_in(alloc, members)
}

/// Whether these are the bytes of the header. Whatever they are, each number of it is of 64 bits.
fn is_header(alloc: Global, header: &Header, bytes: &[u8]) -> Result<bool, AllocError>
    ensures text { IfOk result (λ same. IsTrue same
        ↔ (line_text (header_of header.now.settings header.now.moment) ≡ bytes.now)) }
    ensures numbers { IfOk result (λ _. HasShortNumbers (header_of header.now.settings header.now.moment)) }
{
    let members = header_line(alloc, &header.settings, header.moment)?;
    let text = write_json(alloc, &Json::Obj(members))?;
    Ok(text.as_slice() == bytes)
}

/// What the first line of a journal's text says, given without its line feed: these very bytes say it.
///
/// Nothing is read of bytes that aren't exactly a header, nor of one with a moment that no clock can show.
pub fn read_header(alloc: Global, line: &[u8]) -> Result<Option<Header>, AllocError>
    ensures said { IfOk result (λ found. IfSome found
        (λ h. line_bytes (header_of h.settings h.moment) ≡ line.now ++ codes "\n")) }
    ensures heads { IfOk result (λ found. IfSome found (λ h. CanHead h.settings h.moment)) }
    // A header that has the line is what is read; so where nothing is read, the line isn't a header.
    ensures found { (settings : Settings) (now : ℕ) → CanHead settings now
        → line_bytes (header_of settings now) ≡ line.now ++ codes "\n"
        → IfOk result (λ found. found ≡ Some (record { settings = settings; moment = now })) }
{
    let found = match header_of_bytes(alloc, line) {
        Ok(found) => found,
        Err(ReadError::Refused) => return Ok(None),
        Err(ReadError::Memory) => return Err(AllocError),
    };
    if found.moment > LAST_MOMENT {
        return Ok(None);
    }
    let is_same = is_header(alloc, &found, line)?;
    if is_same { Ok(Some(found)) } else { Ok(None) }
}
