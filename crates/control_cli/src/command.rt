//! The top call.
ghost use Rattle.std.specs.Prelude.{◌≡◌, ◌≢◌, ◌⊎◌};
ghost use Rattle.http_session.specs.Session.{state_of};
ghost use Rattle.command_words.specs.Grammar.{IsCommand, IsOutside, IsWithin};
ghost use Rattle.command_words.specs.declared.command.Command.{Command};
ghost use Rattle.manifest_intake.specs.Good.{is_good};
ghost use Rattle.control_rules.specs.Facts.{IsKept};
ghost use Rattle.step_scheduler.specs.Planes.{IsSafeThroughout, RemovesUnusedAlone};
ghost use Rattle.control_cli.specs.Commands.{gate_of, CommandLeaves, RefusesCommand, IsServing, Runs, IsRefused, AreServing};

use crate::check::check_manifest;
use crate::drill::{generate, run_drill};
use crate::export::export_journal;
use crate::pick::pick_numbers;
use crate::replay::replay;
use crate::serve::serve_gate;
use crate::status::Status;
use api_server::World;
use command_words::{Command, WordsError, read_command};
use json_tree::Text;
use serve_io::{Clock, Gate, Sink, Source};
use std::alloc::Global;

/// What a world's plane keeps is a fact of its type, which it tells with its store.
fn plane_keeps(world: &World)
    ensures kept { IsKept is_good world.now.plane }
    ensures safe { IsSafeThroughout world.now.plane.journal }
    ensures unused { RemovesUnusedAlone world.now.plane.journal }
{
    let _store = world.plane().store();
}

/// Runs a command over a world.
fn run_command<S: Source, K: Sink, C: Clock, G: Gate>(
    alloc: Global,
    command: Command,
    world: &mut World,
    source: &mut S,
    sink: &mut K,
    clock: &mut C,
    gate: &mut G,
) -> Status
    requires { IsWithin command }
    ensures leaves { CommandLeaves command
        (state_of world.old (S.left source.old) (S.faults source.old) (K.taken sink.old) (K.faults sink.old) (C.moments clock.old))
        (state_of world.new (S.left source.new) (S.faults source.new) (K.taken sink.new) (K.faults sink.new) (C.moments clock.new))
        (gate_of (G.coming gate.old) (G.back gate.old) (G.listening_at gate.old) (G.listens gate.old) (G.faults gate.old))
        (gate_of (G.coming gate.new) (G.back gate.new) (G.listening_at gate.new) (G.listens gate.new) (G.faults gate.new))
        result }
    ensures usage { result ≡ Status.Usage → RefusesCommand command world.old }
    ensures calm { result ≢ Status.ReadFault → S.faults source.new ≡ S.faults source.old }
    ensures calm_sink { result ≢ Status.WriteFault → K.faults sink.new ≡ K.faults sink.old }
    ensures gate { ¬ (IsServing command) → gate.new ≡ gate.old }
{
    match command {
        Command::Replay(options) => replay(alloc, options, world, source, sink, clock),
        Command::Serve(words) => serve_gate(alloc, words, world, sink, clock, gate),
        Command::Check => check_manifest(alloc, source, sink),
        Command::Generate(count) => generate(alloc, count, sink),
        Command::Drill(count) => run_drill(alloc, count, world, sink),
        Command::Pick(picking) => pick_numbers(alloc, picking, source, sink),
        Command::Export => export_journal(alloc, world, source, sink, clock),
    }
}

/// Runs the command of the words over a world.
///
/// - `replay` is one session over the source, whose replies go to the sink, on the world with the settings and the automatic steps of the words.
/// - `serve` listens at the gate and serves its connections, one after another, each by a session on that world; a line on the sink tells of each.
/// - `check` reads one manifest from the source and writes it with its defaults, or its refusal, to the sink.
/// - `gen` writes the stream of requests that a number makes, and `drill` runs that stream over the world in memory and writes seven lines that tell of the run.
/// - `pick` follows the polls of Tables that the source gives, one a line, and writes which Revision each number picks.
/// - `export` is a session over the source on that world with the standard settings, whose replies go to nobody, and then writes the journal as text.
///
/// A source, a sink or a gate that fails ends the run with its status and isn't tried again; a run that is out of memory ends so too. Words outside the grammar are
/// `Usage`, and so are settings that the world refuses: nothing is read or written, and the world is as before.
pub fn run<S: Source, K: Sink, C: Clock, G: Gate>(
    alloc: Global,
    words: &[Text],
    world: &mut World,
    source: &mut S,
    sink: &mut K,
    clock: &mut C,
    gate: &mut G,
) -> Status
    ensures usage { result ≡ Status.Usage → IsOutside words.now ⊎ IsRefused words.now world.old }
    ensures outside { IsOutside words.now → (result ≡ Status.Usage) ⊎ (result ≡ Status.Memory) }
    ensures untouched { IsOutside words.now
        → state_of world.new (S.left source.new) (S.faults source.new) (K.taken sink.new) (K.faults sink.new) (C.moments clock.new)
        ≡ state_of world.old (S.left source.old) (S.faults source.old) (K.taken sink.old) (K.faults sink.old) (C.moments clock.old) }
    ensures runs { (command : Command) → IsCommand words.now command → Runs words.now
        (state_of world.old (S.left source.old) (S.faults source.old) (K.taken sink.old) (K.faults sink.old) (C.moments clock.old))
        (state_of world.new (S.left source.new) (S.faults source.new) (K.taken sink.new) (K.faults sink.new) (C.moments clock.new))
        (gate_of (G.coming gate.old) (G.back gate.old) (G.listening_at gate.old) (G.listens gate.old) (G.faults gate.old))
        (gate_of (G.coming gate.new) (G.back gate.new) (G.listening_at gate.new) (G.listens gate.new) (G.faults gate.new))
        result }
    ensures kept { IsKept is_good world.new.plane }
    ensures safe { IsSafeThroughout world.new.plane.journal }
    ensures unused { RemovesUnusedAlone world.new.plane.journal }
    ensures calm { result ≢ Status.ReadFault → S.faults source.new ≡ S.faults source.old }
    ensures calm_sink { result ≢ Status.WriteFault → K.faults sink.new ≡ K.faults sink.old }
    ensures gate { ¬ (AreServing words.now) → gate.new ≡ gate.old }
{
    match read_command(alloc, words) {
        Ok(command) => {
            let status = run_command(alloc, command, world, source, sink, clock, gate);
            plane_keeps(world);
            status
        }
        Err(WordsError::Usage) => {
            plane_keeps(world);
            Status::Usage
        }
        Err(WordsError::Memory) => {
            plane_keeps(world);
            Status::Memory
        }
    }
}
