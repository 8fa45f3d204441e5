//! The program: it makes the real ends, runs the command of its words over a new world, and exits with the number of the
//! status. The name of a status other than `Done` is written to standard error.
#![tactic(auto)]

use api_server::World;
use control_cli::{Status, run};
use json_tree::Text;
use serve_io::{ReadSource, WriteSink};
use std::alloc::AllocError;
use std::process::ExitCode;
use std::{env, io};
use step_scheduler::standard_settings;
use tcp_ends::{SystemClock, TcpGate};

// The words behind the program's name. One that isn't UTF-8 is an error of kind `InvalidData`.
fn words_of(rt: &HostRuntime) -> io::Result<Vec<Text>> {
    let alloc = rt.alloc();
    let mut words = Vec::new(alloc);
    for word in env::args(rt)?.skip(1) {
        words.push(Text::new(alloc, word.as_str())?)?;
    }
    Ok(words)
}

// The status of the command of the words, over a new world and the real ends.
fn run_over_new_world(rt: &HostRuntime, words: &[Text]) -> Result<Status, AllocError> {
    let alloc = rt.alloc();
    let mut world = World::new(alloc, standard_settings(alloc)?);
    let mut source = ReadSource::new(rt.reader());
    let mut sink = WriteSink::new(io::writer(rt));
    let mut clock = SystemClock::new(rt);
    let mut gate = TcpGate::new(rt);
    Ok(run(
        alloc,
        words,
        &mut world,
        &mut source,
        &mut sink,
        &mut clock,
        &mut gate,
    ))
}

// The status of a run. A word that isn't UTF-8 is outside the grammar of the words.
fn status_of(rt: &HostRuntime) -> Status {
    match words_of(rt) {
        Ok(words) => run_over_new_world(rt, words.as_slice()).unwrap_or(Status::Memory),
        Err(error) if error.kind() == io::ErrorKind::InvalidData => Status::Usage,
        Err(_) => Status::Memory,
    }
}

fn main(rt: HostRuntime) -> ExitCode {
    let status = status_of(&rt);
    if status != Status::Done {
        // The number says the same, so a standard error that can't be written changes nothing.
        let _ = eprintln!(rt; "{}", status.word());
    }
    ExitCode::from(status.number())
}
