//! A handler that counts refusals.
ghost use Rattle.std.specs.Prelude.{◌≡◌, ◌<◌, length, IfOk, OnErr};

use api_server::World;
use http_session::{ClockMode, Handler, Reply, Request, SessionEnd, session};
use serve_io::{MemClock, SureSink, SureSource};
use std::alloc::{AllocError, Global};

/// The least code of a reply that refuses.
const LEAST_REFUSAL: u16 = 400;

/// Hands each request on to a world, and counts the replies that refuse.
#[derive(Drop)]
pub(crate) struct Tally<'a> {
    pub world: &'a mut World,
    pub refused: u64,
}

impl<'a> Tally<'a> {
    ghost use Rattle.request_drill.specs.Runs.{Stops};
    ghost use Rattle.request_drill.specs.Tallies.{Counts};

    /// Before any request.
    pub fn new(world: &'a mut World) -> Tally<'a>
        ensures same { result.world.ghost_name ≡ world.entry.ghost_name }
        ensures world { result.world.now ≡ world.old }
        ensures refused { result.refused ≡ 0 }
    {
        Tally { world, refused: 0 }
    }

    /// Runs the requests of a stream, whose replies nobody sees. The answer is how many were answered.
    pub fn run(&mut self, alloc: Global, stream: Vec<u8>) -> Result<u64, AllocError>
        requires short { length stream.items < 4294967295 }
        requires start { self.old.refused ≡ 0 }
        requires still { self.old.world.now.auto ≡ 0 }
        ensures same { self.new.world.ghost_name ≡ self.old.world.ghost_name }
        ensures ok { IfOk result (Counts stream.items self.old self.new) }
        ensures err { OnErr result (Stops stream.items self.old.world.now self.new.world.now) }
    {
        let mut source = SureSource::new(stream);
        let mut sink = SureSink::new();
        let mut clock = MemClock::new(Vec::new(alloc));
        let report = session(
            alloc,
            self,
            &mut source,
            &mut sink,
            &mut clock,
            ClockMode::Leave,
        );
        match report.end {
            SessionEnd::Memory => Err(AllocError),
            _ => Ok(report.answered),
        }
    }
}

impl Handler for Tally<'_> {
    ghost use Rattle.request_drill.specs.Tallies as spec;

    ghost asks = { spec.AsksCounting };

    ghost asks_cut = { spec.CutsCounting };

    ghost after_gives = { spec.WorksBehind };

    ghost after_cut = { spec.CutsBehind };

    fn handle(&mut self, now: Option<u64>, request: &Request) -> Result<Reply, AllocError> {
        let reply = self.world.handle(now, request)?;
        if reply.code >= LEAST_REFUSAL {
            self.refused = self.refused.saturating_add(1);
        }
        Ok(reply)
    }

    fn after(&mut self) -> Result<(), AllocError> {
        self.world.after()
    }
}
