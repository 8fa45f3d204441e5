//! The options behind a command, read by clap.
//!
//! To clap a command is a list of names here. Each is an option that takes one value and is given at most once, in any
//! order, as `--name value` or `--name=value`.
ghost use Rattle.std.specs.Prelude.{◌≡◌, [], drop, map, IfOk, IsErrAnd, IsTrue};
ghost use Rattle.std.specs.List.{list_all, list_any};
ghost use Rattle.clap.specs.Words.{app_of, first_value, found_of};
ghost use Rattle.command_words.specs.Apps.{app_with};
ghost use Rattle.command_words.specs.Options.{GivesNone, GivesValues, is_name, texts_of};
ghost use Rattle.command_words.specs.Stray as stray;

use crate::command::WordsError;
use clap::error::ErrorKind;
use clap::{Arg, ArgMatches, Command};
use json_tree::Text;
use std::alloc::{AllocError, Global};

/// Whether the word is `-`, `--` or short options. The grammar has none of these, and clap lets `--` pass.
fn is_stray(word: &str) -> bool
    ensures { result ≡ stray.is_stray word.now }
{
    match word.as_bytes() {
        [b'-', b'-', _, ..] => false,
        [b'-', ..] => true,
        _ => false,
    }
}

/// Whether a word behind the first is such a word.
fn has_stray(words: &[&str]) -> bool
    ensures { result ≡ list_any (λ word. stray.is_stray word.now) (drop 1 words.now) }
{
    words.iter().skip(1).any(|word| is_stray(word))
}

/// The words as clap reads them.
pub(crate) fn borrowed<'a>(alloc: Global, words: &'a [Text]) -> Result<Vec<&'a str>, AllocError>
    ensures { IfOk result (λ texts. texts_of texts.items ≡ words.now) }
{
    words.iter().map(|word| word.as_str()).collect(alloc)
}

/// A command for clap that has an option of each name.
fn command_with<'a>(alloc: Global, names: &'a [&'a str]) -> Result<Command<'a>, AllocError>
    ensures { IfOk result (λ command. app_of command ≡ app_with (texts_of names.now)) }
{
    let mut command = Command::new(alloc, "fullkewa").disable_help_flag(true);
    for name in names {
        command = command.arg(Arg::new(alloc, name).long(name))?;
    }
    Ok(command)
}

/// clap's matches of the words behind the first, as options of these names: it has for each name the value that is given to it.
///
/// `Usage` comes exactly where the words aren't those of such options.
pub(crate) fn read_options<'a>(
    alloc: Global,
    names: &'a [&'a str],
    words: &'a [&'a str],
) -> Result<ArgMatches<'a>, WordsError>
    requires names { IsTrue (list_all is_name (texts_of names.now)) }
    ensures values { IfOk result (λ matches.
        GivesValues (texts_of names.now) (drop 1 (texts_of words.now)) (first_value (found_of matches))) }
    ensures usage { IsErrAnd result (λ e. e ≡ WordsError.Usage)
        → GivesNone (texts_of names.now) (drop 1 (texts_of words.now)) }
{
    if has_stray(words) {
        return Err(WordsError::Usage);
    }
    let command = command_with(alloc, names)?;
    match command.try_get_matches_from(words) {
        Ok(matches) => Ok(matches),
        Err(error) => match error.kind() {
            ErrorKind::OutOfMemory => Err(WordsError::Memory),
            _ => Err(WordsError::Usage),
        },
    }
}

/// Reads the words behind the first as those of a command without options: `Usage` comes exactly where there are any.
pub(crate) fn read_bare(alloc: Global, words: &[&str]) -> Result<(), WordsError>
    ensures none { IfOk result (λ _. drop 1 (texts_of words.now) ≡ []) }
    ensures usage { IsErrAnd result (λ e. e ≡ WordsError.Usage) → ¬ (drop 1 (texts_of words.now) ≡ []) }
{
    let _matches = read_options(alloc, [].as_slice(), words)?;
    Ok(())
}
