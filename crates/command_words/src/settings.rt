//! The options that set up a plane.
ghost use Rattle.std.specs.Prelude.{◌≡◌, drop, IfOk, IsErrAnd, None, Some, unwrap_or};
ghost use Rattle.clap.specs.Words.{first_value, found_of};
ghost use Rattle.command_words.specs.Options.{texts_of};
ghost use Rattle.command_words.specs.Settings.{IsReplay, count_between, gc_in, options_of};

use crate::command::WordsError;
use crate::options::read_options;
use clap::ArgMatches;
use control_rules::{GcSettings, Settings};
use json_tree::Text;
use revision_gc::read_settings;
use serve_names::{is_domain, read_count};
use std::alloc::Global;

/// The most automatic steps.
const MOST_STEPS: u64 = 10_000;

/// The names of the options.
static NAMES: [&str; 6] = [
    "auto",
    "domain",
    "retain-since-create-time",
    "retain-since-last-active-time",
    "min-non-active-revisions",
    "max-non-active-revisions",
];

/// What the words say of the plane that is run.
#[derive(Debug, Drop, PartialEq)]
pub struct Options {
    /// How many automatic steps follow each request, from 0 to 10,000.
    pub auto: u64,
    /// The settings of the plane.
    pub settings: Settings,
}

/// The number of 1 to 10 digits, where it is from `least` to `most`.
pub(crate) fn count_between(text: &str, least: u64, most: u64) -> Option<u64>
    ensures { result ≡ count_between least most text.now }
{
    let count = read_count(text.as_bytes())?;
    if least <= count && count <= most {
        Some(count)
    } else {
        None
    }
}

/// The value of the option, or the standard text where none is given.
pub(crate) fn value_or<'a>(matches: &ArgMatches<'a>, name: &str, standard: &'a str) -> &'a str
    ensures { result.now ≡ unwrap_or (first_value (found_of matches.now) name.now) standard.entry.now }
{
    match matches.get_str(name) {
        Some(text) => text,
        None => standard,
    }
}

/// The settings of collection by their four texts, which `Usage` says are none.
fn read_gc(
    alloc: Global,
    create: &str,
    active: &str,
    least: &str,
    most: &str,
) -> Result<GcSettings, WordsError>
    ensures gc { IfOk result (λ gc. gc_in create.now active.now least.now most.now ≡ Some gc) }
    ensures usage { IsErrAnd result (λ e. e ≡ WordsError.Usage)
        → gc_in create.now active.now least.now most.now ≡ None }
{
    let create = Text::new(alloc, create)?;
    let active = Text::new(alloc, active)?;
    let least = Text::new(alloc, least)?;
    let most = Text::new(alloc, most)?;
    match read_settings(&create, &active, &least, &most) {
        Ok(gc) => Ok(gc),
        Err(_) => Err(WordsError::Usage),
    }
}

/// The options that the matches give, with `steps` as the standard text of the automatic steps. `Usage` comes exactly where
/// a text says nothing.
pub(crate) fn options_in<'a>(
    alloc: Global,
    matches: &ArgMatches<'a>,
    steps: &'a str,
) -> Result<Options, WordsError>
    ensures options { IfOk result (λ options.
        options_of steps.entry.now (first_value (found_of matches.now)) ≡ Some options) }
    ensures usage { IsErrAnd result (λ e. e ≡ WordsError.Usage)
        → options_of steps.entry.now (first_value (found_of matches.now)) ≡ None }
{
    let Some(auto) = count_between(value_or(matches, "auto", steps), 0, MOST_STEPS) else {
        return Err(WordsError::Usage);
    };
    let domain = value_or(matches, "domain", "example.com");
    if !is_domain(domain.as_bytes()) {
        return Err(WordsError::Usage);
    }
    let create = value_or(matches, "retain-since-create-time", "48h");
    let active = value_or(matches, "retain-since-last-active-time", "15h");
    let least = value_or(matches, "min-non-active-revisions", "20");
    let most = value_or(matches, "max-non-active-revisions", "1000");
    let gc = read_gc(alloc, create, active, least, most)?;
    let domain = Text::new(alloc, domain)?;
    Ok(Options {
        auto,
        settings: Settings { domain, gc },
    })
}

/// Reads the words behind the first as those of `replay`: without `--auto` no automatic steps follow a request.
pub(crate) fn read_replay<'a>(alloc: Global, words: &'a [&'a str]) -> Result<Options, WordsError>
    ensures replay { IfOk result (λ options. IsReplay (drop 1 (texts_of words.now)) options) }
    ensures usage { IsErrAnd result (λ e. e ≡ WordsError.Usage)
        → (options : Options) → ¬ (IsReplay (drop 1 (texts_of words.now)) options) }
{
    let matches = read_options(alloc, NAMES.as_slice(), words)?;
    options_in(alloc, &matches, "0")
}
