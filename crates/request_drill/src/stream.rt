//! The stream of requests.
ghost use Rattle.std.specs.Prelude.{◌≡◌, ◌≤◌, ◌∷◌, ◌++◌, [], length, IfOk, OnOk, codes};
ghost use Rattle.request_drill.specs.Generated as spec;

use crate::numbers::next_number;
use crate::texts::{put_number, report_body, service_body, service_path, services};
use std::alloc::{AllocError, Global};

/// The most Services of a stream.
pub const MOST_SERVICES: u64 = 500;

/// A part of a stream in which each Service has a request, or none.
#[derive(Clone, Copy, Debug, PartialEq, Eq)]
pub(crate) enum Part {
    /// Each is created.
    Creations,
    /// Its first Revision is reported well, save where four divides its number.
    Reports,
    /// It is removed where five divides its number.
    Removals,
}

/// Requests, one behind another.
#[derive(Drop)]
pub(crate) struct Stream {
    /// Their bytes.
    pub bytes: Vec<u8>,
    /// How many they are.
    pub requests: usize,
    ghost few: { requests ≤ length bytes.items },
}

impl Stream {
    ghost use Rattle.request_drill.specs.Streams.{Adds, part};

    /// Without requests.
    fn new(alloc: Global) -> Stream
        ensures bytes { result.bytes.items ≡ [] }
        ensures requests { result.requests ≡ 0 }
    {
        Stream {
            bytes: Vec::new(alloc),
            requests: 0,
        }
    }

    fn put(&mut self, text: &[u8]) -> Result<(), AllocError>
        ensures ok { OnOk result (self.new.bytes.items ≡ self.old.bytes.items ++ text.now) }
        ensures requests { self.new.requests ≡ self.old.requests }
    {
        self.bytes.extend_from_slice(text)
    }

    /// Writes a request line, and the field that each request has.
    fn put_line(&mut self, method: &[u8], target: &[u8]) -> Result<(), AllocError>
        ensures ok { OnOk result (self.new.bytes.items ≡ self.old.bytes.items ++ spec.request_line method.now target.now) }
        ensures requests { self.new.requests ≡ self.old.requests }
    {
        self.put(method)?;
        self.put(b" ")?;
        self.put(target)?;
        self.put(b" HTTP/1.1\r\nHost: gen\r\n")?;
        Ok(())
    }

    /// Writes the field that tells the length of a body, and the body.
    fn put_body(&mut self, body: &[u8]) -> Result<(), AllocError>
        ensures ok { OnOk result (self.new.bytes.items ≡ self.old.bytes.items ++ spec.body_bytes (Some body.now)) }
        ensures requests { self.new.requests ≡ self.old.requests }
    {
        self.put(b"Content-Length: ")?;
        put_number(&mut self.bytes, body.len() as u64)?;
        self.put(b"\r\n\r\n")?;
        self.put(body)
    }

    /// Adds a POST with its body.
    #[tactic(auto, unfolding(crate::specs::Generated::request_bytes))]
    fn add_post(&mut self, target: &[u8], body: &[u8]) -> Result<(), AllocError>
        ensures { OnOk result (Adds self.old self.new (spec.post target.now body.now ∷ [])) }
    {
        self.put_line(b"POST", target)?;
        self.put_body(body)?;
        self.requests += 1;
        Ok(())
    }

    /// Adds a GET.
    #[tactic(auto, unfolding(crate::specs::Generated::request_bytes))]
    fn add_get(&mut self, target: &[u8]) -> Result<(), AllocError>
        ensures { OnOk result (Adds self.old self.new (spec.get target.now ∷ [])) }
    {
        self.put_line(b"GET", target)?;
        self.put(b"\r\n")?;
        self.requests += 1;
        Ok(())
    }

    /// Adds a DELETE.
    #[tactic(auto, unfolding(crate::specs::Generated::request_bytes))]
    fn add_delete(&mut self, target: &[u8]) -> Result<(), AllocError>
        ensures { OnOk result (Adds self.old self.new (spec.delete target.now ∷ [])) }
    {
        self.put_line(b"DELETE", target)?;
        self.put(b"\r\n")?;
        self.requests += 1;
        Ok(())
    }

    /// Adds what a part has at a place, by its number.
    #[tactic(auto, unfolding(crate::specs::Generated::creation, crate::specs::Generated::report, crate::specs::Generated::removal))]
    fn add(&mut self, alloc: Global, kind: Part, place: u64, number: u64) -> Result<(), AllocError>
        ensures { OnOk result (Adds self.old self.new (part kind place number)) }
    {
        match kind {
            Part::Creations => {
                let body = service_body(alloc, place, number)?;
                self.add_post(services(), body.as_slice())
            }
            Part::Reports if number % 4 != 0 => {
                let body = report_body(alloc, place)?;
                self.add_post(b"/control/reports", body.as_slice())
            }
            Part::Removals if number % 5 == 0 => {
                let path = service_path(alloc, place)?;
                self.add_delete(path.as_slice())
            }
            _ => Ok(()),
        }
    }

    /// Adds what a part has at each place in order.
    #[tactic(auto, using(crate::proofs::Adding::adds_none, crate::proofs::Adding::adds_more))]
    fn add_each(&mut self, alloc: Global, kind: Part, count: u64) -> Result<(), AllocError>
        ensures { OnOk result (Adds self.old self.new (spec.each_place (part kind) count count)) }
    {
        let mut number = count;
        for before in 0..count {
            number = next_number(number);
            self.add(alloc, kind, before + 1, number)?;
        }
        Ok(())
    }

    fn add_settle(&mut self) -> Result<(), AllocError>
        ensures { OnOk result (Adds self.old self.new (spec.settle ∷ [])) }
    {
        self.add_post(b"/control/settle", b"")
    }

    /// A week goes by, and the controllers work until nothing is due.
    fn add_week(&mut self) -> Result<(), AllocError>
        ensures { OnOk result (Adds self.old self.new spec.week) }
    {
        self.add_post(b"/control/clock", b"{\"now\":604800}")?;
        self.add_settle()?;
        Ok(())
    }

    /// Asks for what stands.
    fn add_views(&mut self) -> Result<(), AllocError>
        ensures { OnOk result (Adds self.old self.new spec.views) }
    {
        self.add_get(b"/control/tables")?;
        self.add_get(b"/control/summary")?;
        Ok(())
    }
}

/// The stream of so many Services, and how many requests it has.
#[tactic(auto, unfolding(crate::specs::Generated::requests_of, crate::specs::Generated::generated))]
pub(crate) fn stream_of(alloc: Global, count: u64) -> Result<Stream, AllocError>
    ensures bytes { IfOk result (λ stream. stream.bytes.items ≡ spec.generated count) }
    ensures requests { IfOk result (λ stream. stream.requests ≡ length (spec.requests_of count)) }
{
    let mut stream = Stream::new(alloc);
    stream.add_each(alloc, Part::Creations, count)?;
    stream.add_settle()?;
    stream.add_each(alloc, Part::Reports, count)?;
    stream.add_settle()?;
    stream.add_each(alloc, Part::Removals, count)?;
    stream.add_week()?;
    stream.add_views()?;
    Ok(stream)
}

/// The stream that a number makes, from 1 to `MOST_SERVICES`: it creates so many Services, reports the first Revisions of some,
/// removes some, and asks for the Tables and the summary at last, with a settle behind each of these.
pub fn generate(alloc: Global, count: u64) -> Result<Vec<u8>, AllocError>
    ensures { IfOk result (λ stream. stream.items ≡ spec.generated count) }
{
    Ok(stream_of(alloc, count)?.bytes)
}
