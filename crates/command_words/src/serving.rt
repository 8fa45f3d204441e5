//! The options of a server.
ghost use Rattle.std.specs.Prelude.{◌≡◌, drop, IfOk, IsErrAnd, None, Some, option_map};
ghost use Rattle.clap.specs.Words.{first_value, found_of};
ghost use Rattle.command_words.specs.Options.{texts_of};
ghost use Rattle.command_words.specs.Serving.{IsServe, serving_of, sized};

use crate::command::WordsError;
use crate::options::read_options;
use crate::settings::{Options, count_between, options_in, value_or};
use clap::ArgMatches;
use json_tree::Text;
use std::alloc::Global;

/// The most bytes of an address or a host.
const MOST_BYTES: usize = 255;

/// The names of the options.
static NAMES: [&str; 8] = [
    "listen",
    "sessions",
    "auto",
    "domain",
    "retain-since-create-time",
    "retain-since-last-active-time",
    "min-non-active-revisions",
    "max-non-active-revisions",
];

/// What the words say of a server.
#[derive(Debug, Drop, PartialEq)]
pub struct Serving {
    /// The plane that is served.
    pub options: Options,
    /// Where it listens, in 1 to 255 bytes, such as `127.0.0.1:8080`.
    pub address: Text,
    /// How many connections are served, from 1 to 4,294,967,295.
    pub sessions: u64,
}

/// The text, where it has 1 to 255 bytes.
pub(crate) fn sized<'a>(text: &'a str) -> Option<&'a str>
    ensures { option_map (λ t. t.now) result ≡ sized text.entry.now }
{
    if text.is_empty() || text.len() > MOST_BYTES {
        None
    } else {
        Some(text)
    }
}

/// The server that the matches give. `Usage` comes exactly where a text says nothing, or no address is given.
#[tactic(auto, unfolding(crate::specs::Serving::serving_of))]
fn serving_in<'a>(alloc: Global, matches: &ArgMatches<'a>) -> Result<Serving, WordsError>
    ensures serving { IfOk result (λ serving. serving_of (first_value (found_of matches.now)) ≡ Some serving) }
    ensures usage { IsErrAnd result (λ e. e ≡ WordsError.Usage) → serving_of (first_value (found_of matches.now)) ≡ None }
{
    let Some(address) = matches.get_str("listen") else {
        return Err(WordsError::Usage);
    };
    let Some(address) = sized(address) else {
        return Err(WordsError::Usage);
    };
    let sessions = value_or(matches, "sessions", "4294967295");
    let Some(sessions) = count_between(sessions, 1, 4_294_967_295) else {
        return Err(WordsError::Usage);
    };
    let options = options_in(alloc, matches, "30")?;
    let address = Text::new(alloc, address)?;
    Ok(Serving {
        options,
        address,
        sessions,
    })
}

/// Reads the words behind the first as those of `serve`: without `--auto` 30 automatic steps follow each request, and without
/// `--sessions` the greatest number of connections is served.
pub(crate) fn read_serve<'a>(alloc: Global, words: &'a [&'a str]) -> Result<Serving, WordsError>
    ensures serve { IfOk result (λ serving. IsServe (drop 1 (texts_of words.now)) serving) }
    ensures usage { IsErrAnd result (λ e. e ≡ WordsError.Usage)
        → (serving : Serving) → ¬ (IsServe (drop 1 (texts_of words.now)) serving) }
{
    let matches = read_options(alloc, NAMES.as_slice(), words)?;
    serving_in(alloc, &matches)
}
