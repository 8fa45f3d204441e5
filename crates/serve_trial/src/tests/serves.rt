//! A gate with two connections that is served, of which some calls fail.
ghost use Rattle.std.specs.Prelude.{◌<◌, ◌≤◌, length, IfOk};

use super::bytes;
use api_server::World;
use connection_loop::{ServeEnd, ServeOptions, serve};
use control_rules::Settings;
use json_tree::Text;
use serve_io::{MemClock, MemGate, MemSink, MemSource};
use std::alloc::{AllocError, Global};
use std::test::Fail;
use step_scheduler::standard_settings;

// Which calls of the gate, of the first connection's source and of the sink of the lines fail; and then the lines, the ends that
// were handed back by what was written to them, how it ended, and the length of the journal.
struct Case {
    name: &'static str,
    failing_gate: &'static [u64],
    failing_reads: &'static [u64],
    failing_lines: &'static [u64],
    lines: &'static [u8],
    handed: &'static [&'static [u8]],
    end: ServeEnd,
    journal: u64,
}

const CASES: [Case; 5] = [
    Case {
        name: "no call fails",
        failing_gate: &[],
        failing_reads: &[],
        failing_lines: &[],
        lines: b"connection 1: clean, 2 answered\nconnection 2: closed, 1 answered\n",
        handed: &[bytes::CREATED_AND_READ, bytes::READ_AND_CLOSED],
        end: ServeEnd::Done,
        journal: 1,
    },
    Case {
        name: "the gate fails to listen",
        failing_gate: &[1],
        failing_reads: &[],
        failing_lines: &[],
        lines: b"",
        handed: &[],
        end: ServeEnd::GateFault,
        journal: 0,
    },
    Case {
        name: "the gate fails to give the second connection",
        failing_gate: &[3],
        failing_reads: &[],
        failing_lines: &[],
        lines: b"connection 1: clean, 2 answered\n",
        handed: &[bytes::CREATED_AND_READ],
        end: ServeEnd::GateFault,
        journal: 1,
    },
    Case {
        name: "the first read of the first connection fails",
        failing_gate: &[],
        failing_reads: &[1],
        failing_lines: &[],
        lines: b"connection 1: readfault, 0 answered\nconnection 2: closed, 1 answered\n",
        handed: &[b"", bytes::NONE_AND_CLOSED],
        end: ServeEnd::Done,
        journal: 0,
    },
    Case {
        name: "the first line isn't written",
        failing_gate: &[],
        failing_reads: &[],
        failing_lines: &[1],
        lines: b"",
        handed: &[bytes::CREATED_AND_READ],
        end: ServeEnd::WriteFault,
        journal: 1,
    },
];

// A connection over which these bytes come.
fn connection(
    alloc: Global,
    input: &[u8],
    failing: &[u64],
) -> Result<(MemSource, MemSink), AllocError> {
    let source = MemSource::new(
        Vec::from_slice(alloc, input)?,
        4_096,
        Vec::from_slice(alloc, failing)?,
    );
    let sink = MemSink::new(alloc, 4_096, 4_096, Vec::new(alloc))?;
    Ok((source, sink))
}

// A gate to which the two connections of a case are to come.
fn gate_of(alloc: Global, case: &Case) -> Result<MemGate, AllocError> {
    let first = connection(alloc, bytes::POST_AND_GET, case.failing_reads)?;
    let second = connection(alloc, bytes::GET_AND_CLOSE, &[])?;
    MemGate::new(
        alloc,
        vec![in alloc; first, second]?,
        Vec::from_slice(alloc, case.failing_gate)?,
    )
}

// Whether these ends were handed back.
fn are_handed(back: &[(MemSource, MemSink)], handed: &[&'static [u8]]) -> bool {
    back.len() == handed.len()
        && back
            .iter()
            .zip(handed.iter())
            .all(|(ends, bytes)| ends.1.bytes() == *bytes)
}

// Two connections at most, at an address of one byte, over a plane with standard settings and no automatic steps.
fn options(alloc: Global) -> Result<ServeOptions, AllocError>
    ensures some { IfOk result (λ options. 0 < length options.address) }
    ensures short { IfOk result (λ options. length options.address ≤ 255) }
{
    let settings = standard_settings(alloc)?;
    Ok(ServeOptions {
        settings,
        auto: 0,
        address: Text::new(alloc, "x")?,
        sessions: 2,
    })
}

// Serves the gate over a new world, at moment 1,000: how that ended, and the length of the journal.
fn serve_new_world(
    alloc: Global,
    settings: Settings,
    options: ServeOptions,
    clock: &mut MemClock,
    sink: &mut MemSink,
    gate: &mut MemGate,
) -> (ServeEnd, u64)
    requires some { 0 < length options.address }
    requires short { length options.address ≤ 255 }
{
    let mut world = World::new(alloc, settings);
    let end = serve(alloc, options, &mut world, sink, clock, gate);
    (end, world.plane().store().version())
}

// Whether a case goes as it says.
fn holds(alloc: Global, case: &Case) -> Result<bool, AllocError> {
    let mut sink = MemSink::new(
        alloc,
        4_096,
        4_096,
        Vec::from_slice(alloc, case.failing_lines)?,
    )?;
    let mut gate = gate_of(alloc, case)?;
    let mut clock = MemClock::new(vec![in alloc; 1_000]?);
    let settings = standard_settings(alloc)?;
    let (end, journal) = serve_new_world(
        alloc,
        settings,
        options(alloc)?,
        &mut clock,
        &mut sink,
        &mut gate,
    );
    Ok(
        end == case.end
            && journal == case.journal
            && sink.bytes() == case.lines
            && are_handed(gate.back(), case.handed),
    )
}

#[test]
fn gates_are_served_as_they_should(rt: HostRuntime) -> Result<(), Fail> {
    for case in &CASES {
        let name = case.name;
        assert!(rt; holds(rt.alloc(), case)?, "{name}");
    }
    Ok(())
}
