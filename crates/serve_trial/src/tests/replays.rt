//! The command `replay` over a source or a sink of which some calls fail.
use super::bytes;
use api_server::World;
use control_cli::{Status, run};
use control_rules::Settings;
use json_tree::Text;
use serve_io::{MemClock, MemSink, MemSource, SureGate};
use std::alloc::{AllocError, Global};
use std::test::Fail;
use step_scheduler::standard_settings;

// What is read, how much in one call, and which calls fail; the same of what is written; and how the run ends.
struct Case {
    name: &'static str,
    input: &'static [u8],
    most_read: usize,
    failing_reads: &'static [u64],
    most_written: usize,
    failing_writes: &'static [u64],
    output: &'static [u8],
    status: Status,
    journal: u64,
}

const CASES: [Case; 7] = [
    Case {
        name: "one byte in each read, of which the fifth fails",
        input: bytes::POST_AND_GET,
        most_read: 1,
        failing_reads: &[5],
        most_written: 4_096,
        failing_writes: &[],
        output: b"",
        status: Status::ReadFault,
        journal: 0,
    },
    Case {
        name: "a request in one read, and the second fails",
        input: bytes::POST,
        most_read: 4_096,
        failing_reads: &[2],
        most_written: 4_096,
        failing_writes: &[],
        output: bytes::CREATED,
        status: Status::ReadFault,
        journal: 1,
    },
    Case {
        name: "the first write fails",
        input: bytes::POST_AND_GET,
        most_read: 4_096,
        failing_reads: &[],
        most_written: 4_096,
        failing_writes: &[1],
        output: b"",
        status: Status::WriteFault,
        journal: 1,
    },
    Case {
        name: "ten bytes in each write, of which the third fails",
        input: bytes::POST_AND_GET,
        most_read: 4_096,
        failing_reads: &[],
        most_written: 10,
        failing_writes: &[3],
        output: b"HTTP/1.1 201 Created",
        status: Status::WriteFault,
        journal: 1,
    },
    Case {
        name: "a body that is too deep",
        input: bytes::POST_NESTED,
        most_read: 4_096,
        failing_reads: &[],
        most_written: 4_096,
        failing_writes: &[],
        output: bytes::UNREADABLE,
        status: Status::Done,
        journal: 0,
    },
    Case {
        name: "a member that is there twice",
        input: bytes::POST_DOUBLED,
        most_read: 4_096,
        failing_reads: &[],
        most_written: 4_096,
        failing_writes: &[],
        output: bytes::CREATED,
        status: Status::Done,
        journal: 1,
    },
    Case {
        name: "9,000 bytes without a line feed",
        input: &[b'x'; 9_000],
        most_read: 4_096,
        failing_reads: &[],
        most_written: 4_096,
        failing_writes: &[],
        output: bytes::TOO_LARGE,
        status: Status::BadRequest,
        journal: 0,
    },
];

// A run over a new world: its status, and the length of the journal.
fn run_new_world(
    alloc: Global,
    settings: Settings,
    words: &[Text],
    source: &mut MemSource,
    sink: &mut MemSink,
    gate: &mut SureGate,
) -> (Status, u64) {
    let mut world = World::new(alloc, settings);
    let mut clock = MemClock::new(Vec::new(alloc));
    let status = run(alloc, words, &mut world, source, sink, &mut clock, gate);
    (status, world.plane().store().version())
}

// Whether a case goes as it says.
fn holds(alloc: Global, case: &Case) -> Result<bool, AllocError> {
    let words = vec![in alloc; Text::new(alloc, "replay")?]?;
    let mut source = MemSource::new(
        Vec::from_slice(alloc, case.input)?,
        case.most_read.max(1),
        Vec::from_slice(alloc, case.failing_reads)?,
    );
    let mut sink = MemSink::new(
        alloc,
        4_096,
        case.most_written.max(1),
        Vec::from_slice(alloc, case.failing_writes)?,
    )?;
    let mut gate = SureGate::new(alloc, Vec::new(alloc))?;
    let settings = standard_settings(alloc)?;
    let (status, journal) = run_new_world(
        alloc,
        settings,
        words.as_slice(),
        &mut source,
        &mut sink,
        &mut gate,
    );
    Ok(status == case.status && journal == case.journal && sink.bytes() == case.output)
}

#[test]
fn runs_end_as_they_should(rt: HostRuntime) -> Result<(), Fail> {
    for case in &CASES {
        let name = case.name;
        assert!(rt; holds(rt.alloc(), case)?, "{name}");
    }
    Ok(())
}
