//! The command that the words name.
ghost use Rattle.std.specs.Prelude.{◌≡◌, IfOk, IsErrAnd};
ghost use Rattle.command_words.specs.Grammar.{IsCommand, IsOutside, IsWithin};

use crate::options::{borrowed, read_bare};
use crate::picking::{Picking, read_number, read_pick};
use crate::serving::{Serving, read_serve};
use crate::settings::{Options, read_replay};
use json_tree::Text;
use std::alloc::{AllocError, Global};
use thiserror::Error;

/// What the words ask for.
#[derive(Debug, Drop, PartialEq)]
pub enum Command {
    /// `replay`: answer the requests of the input on a plane that is set up so.
    Replay(Options),
    /// `serve`: answer the requests of connections on a plane that is set up so.
    Serve(Serving),
    /// `check`: judge the manifest of the input.
    Check,
    /// `gen`: write the stream of requests of this number, from 1 to 500.
    Generate(u64),
    /// `drill`: run the stream of this number, from 1 to 500, in memory.
    Drill(u64),
    /// `pick`: follow the polls of the input, and pick.
    Pick(Picking),
    /// `export`: answer the requests of the input on a standard plane, and write its journal.
    Export,
}

/// Why words are not read.
#[derive(Clone, Copy, Debug, PartialEq, Eq, Error)]
pub enum WordsError {
    /// The words are outside the grammar.
    #[error("the words are no command")]
    Usage,
    /// Out of memory.
    #[error("out of memory")]
    Memory,
}

impl From<AllocError> for WordsError {
    ghost use Rattle.std.specs.Prelude.{◌≡◌};
    ghost use Rattle.command_words.specs.declared.command.WordsError.TheVariants.{Memory};

    ghost from_gives = { λ _ error. error ≡ Memory };

    fn from(_error: AllocError) -> WordsError {
        WordsError::Memory
    }
}

// The command that the words are, before its limits are told.
fn command_of(alloc: Global, words: &[Text]) -> Result<Command, WordsError>
    ensures command { IfOk result (IsCommand words.now) }
    ensures usage { IsErrAnd result (λ e. e ≡ WordsError.Usage) → IsOutside words.now }
{
    let Some(first) = words.first() else {
        return Err(WordsError::Usage);
    };
    let texts = borrowed(alloc, words)?;
    match first.as_str() {
        "replay" => Ok(Command::Replay(read_replay(alloc, texts.as_slice())?)),
        "serve" => Ok(Command::Serve(read_serve(alloc, texts.as_slice())?)),
        "check" => {
            read_bare(alloc, texts.as_slice())?;
            Ok(Command::Check)
        }
        "gen" => Ok(Command::Generate(read_number(texts.as_slice())?)),
        "drill" => Ok(Command::Drill(read_number(texts.as_slice())?)),
        "pick" => Ok(Command::Pick(read_pick(alloc, texts.as_slice())?)),
        "export" => {
            read_bare(alloc, texts.as_slice())?;
            Ok(Command::Export)
        }
        _ => Err(WordsError::Usage),
    }
}

/// The command that the words are, with its options or its number.
///
/// The first word names the command. An option is given at most once, in any order, as `--name value` or
/// `--name=value`; a value in a word of its own doesn't begin with `-`. `gen` and `drill` have one number behind them, `check` and `export` nothing. `Usage` comes
/// exactly where the words are no command, or an option's value isn't one that it takes, or an option that has to be given isn't. There is no `--help`.
#[tactic(auto, using(crate::proofs::Within::command_within))]
pub fn read_command(alloc: Global, words: &[Text]) -> Result<Command, WordsError>
    ensures command { IfOk result (IsCommand words.now) }
    ensures within { IfOk result IsWithin }
    ensures usage { IsErrAnd result (λ e. e ≡ WordsError.Usage) → IsOutside words.now }
{
    let command = command_of(alloc, words)?;
    Ok(command)
}
