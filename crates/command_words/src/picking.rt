//! The options of a gateway, and a number alone.
ghost use Rattle.std.specs.Prelude.{◌≡◌, ℕ, drop, IfOk, IsErrAnd, None, Some};
ghost use Rattle.clap.specs.Words.{first_value, found_of};
ghost use Rattle.command_words.specs.Options.{texts_of};
ghost use Rattle.command_words.specs.Picking.{IsNumber, IsPick, picking_of};

use crate::command::WordsError;
use crate::options::read_options;
use crate::serving::sized;
use crate::settings::count_between;
use clap::ArgMatches;
use json_tree::Text;
use std::alloc::Global;

/// The greatest first number.
const MOST_FIRST: u64 = 4_294_967_295;

/// How many numbers are picked at most.
const MOST_COUNT: u64 = 100_000;

/// The greatest number of Services of a stream.
const MOST_SERVICES: u64 = 500;

/// The names of the options.
static NAMES: [&str; 3] = ["host", "first", "count"];

/// What the words say of the numbers that a gateway picks for.
#[derive(Debug, Drop, PartialEq)]
pub struct Picking {
    /// The host, in 1 to 255 bytes.
    pub host: Text,
    /// The first number, from 0 to 4,294,967,295.
    pub first: u64,
    /// How many numbers there are, from 1 to 100,000.
    pub count: u64,
}

/// What the matches say is picked. `Usage` comes exactly where an option isn't given, or a text says nothing.
#[tactic(auto, unfolding(crate::specs::Picking::picking_of))]
fn picking_in<'a>(alloc: Global, matches: &ArgMatches<'a>) -> Result<Picking, WordsError>
    ensures picking { IfOk result (λ picking. picking_of (first_value (found_of matches.now)) ≡ Some picking) }
    ensures usage { IsErrAnd result (λ e. e ≡ WordsError.Usage) → picking_of (first_value (found_of matches.now)) ≡ None }
{
    let Some(host) = matches.get_str("host") else {
        return Err(WordsError::Usage);
    };
    let Some(host) = sized(host) else {
        return Err(WordsError::Usage);
    };
    let Some(first) = matches.get_str("first") else {
        return Err(WordsError::Usage);
    };
    let Some(first) = count_between(first, 0, MOST_FIRST) else {
        return Err(WordsError::Usage);
    };
    let Some(count) = matches.get_str("count") else {
        return Err(WordsError::Usage);
    };
    let Some(count) = count_between(count, 1, MOST_COUNT) else {
        return Err(WordsError::Usage);
    };
    let host = Text::new(alloc, host)?;
    Ok(Picking { host, first, count })
}

/// Reads the words behind the first as those of `pick`.
pub(crate) fn read_pick<'a>(alloc: Global, words: &'a [&'a str]) -> Result<Picking, WordsError>
    ensures pick { IfOk result (λ picking. IsPick (drop 1 (texts_of words.now)) picking) }
    ensures usage { IsErrAnd result (λ e. e ≡ WordsError.Usage)
        → (picking : Picking) → ¬ (IsPick (drop 1 (texts_of words.now)) picking) }
{
    let matches = read_options(alloc, NAMES.as_slice(), words)?;
    picking_in(alloc, &matches)
}

/// Reads the words behind the first as one number from 1 to 500.
pub(crate) fn read_number<'a>(words: &[&'a str]) -> Result<u64, WordsError>
    ensures number { IfOk result (λ number. IsNumber (drop 1 (texts_of words.now)) number) }
    ensures usage { IsErrAnd result (λ e. e ≡ WordsError.Usage)
        → (number : ℕ) → ¬ (IsNumber (drop 1 (texts_of words.now)) number) }
{
    match words {
        [_, text] => match count_between(text, 1, MOST_SERVICES) {
            Some(number) => Ok(number),
            None => Err(WordsError::Usage),
        },
        _ => Err(WordsError::Usage),
    }
}
