//! The settings of collection: the standard ones, and those that are read from texts.
ghost use Rattle.std.specs.Prelude.{◌≡◌};
ghost use Rattle.serve_names.specs.Counts.{count_of};
ghost use Rattle.revision_gc.specs.Settings.{standard_settings, is_disabled, time_in, most_in, is_below, settings_of};

use control_rules::GcSettings;
use json_tree::Text;
use serve_names::{read_count, read_duration};
use thiserror::Error;

/// How long a Revision stays after its creation by the standard settings: 48 hours, in seconds.
const STANDARD_CREATE: u64 = 172_800;

/// How long it stays after it was last active: 15 hours, in seconds.
const STANDARD_ACTIVE: u64 = 54_000;

/// How many Revisions that nobody uses always stay.
const STANDARD_LEAST: u64 = 20;

/// How many of them may stay.
const STANDARD_MOST: u64 = 1_000;

/// Why texts are no settings. The variants are examined in this order.
#[derive(Clone, Copy, Debug, PartialEq, Eq, Error)]
pub enum SettingsError {
    /// The time after the creation is neither a duration nor `disabled`.
    #[error("the time after the creation is neither a duration nor disabled")]
    CreateTime,
    /// The time after the active moment is neither a duration nor `disabled`.
    #[error("the time after the active moment is neither a duration nor disabled")]
    ActiveTime,
    /// The least number is no count.
    #[error("the least number is no count")]
    Least,
    /// The most is neither a count nor `disabled`.
    #[error("the most is neither a count nor disabled")]
    Most,
    /// The most is a count below the least number.
    #[error("the least number is above the most")]
    LeastAboveMost,
}

/// The settings where none are given: 48 hours after the creation and 15 hours after the active moment, and 20 to 1,000
/// Revisions that nobody uses.
pub fn standard_settings() -> GcSettings
    ensures { result ≡ standard_settings }
{
    GcSettings {
        create: Some(STANDARD_CREATE),
        active: Some(STANDARD_ACTIVE),
        least: STANDARD_LEAST,
        most: Some(STANDARD_MOST),
    }
}

// Whether the text is the word for a setting that doesn't count.
fn is_disabled(text: &Text) -> bool
    ensures { result ≡ is_disabled text.now }
{
    text.as_str() == "disabled"
}

// A time: a duration in seconds, or none where it is disabled. Nothing of another text.
fn time_in(text: &Text) -> Option<Option<u64>>
    ensures { result ≡ time_in text.now }
{
    if is_disabled(text) {
        return Some(None);
    }
    Some(Some(read_duration(text.bytes())?))
}

// A count. Nothing of another text.
fn count_in(text: &Text) -> Option<u64>
    ensures { result ≡ count_of text.now }
{
    read_count(text.bytes())
}

// The most: a count, or none where it is disabled. Nothing of another text.
fn most_in(text: &Text) -> Option<Option<u64>>
    ensures { result ≡ most_in text.now }
{
    if is_disabled(text) {
        return Some(None);
    }
    Some(Some(count_in(text)?))
}

// Whether the most is a count below the least number.
fn is_below(most: Option<u64>, least: u64) -> bool
    ensures { result ≡ is_below most least }
{
    match most {
        Some(most) => most < least,
        None => false,
    }
}

/// The settings of the four texts: how long a Revision stays after its creation, how long after its active moment, how
/// many always stay, and how many may stay.
///
/// A time is a duration as `1h30m` or the word `disabled`, `least` is a count of 1 to 10 digits, and `most` is such a
/// count or `disabled`. Each error comes exactly where that text is none of these, the first in order; the last one
/// where `most` is a count below `least`.
pub fn read_settings(
    create: &Text,
    active: &Text,
    least: &Text,
    most: &Text,
) -> Result<GcSettings, SettingsError>
    ensures { result ≡ settings_of create.now active.now least.now most.now }
{
    let Some(create) = time_in(create) else {
        return Err(SettingsError::CreateTime);
    };
    let Some(active) = time_in(active) else {
        return Err(SettingsError::ActiveTime);
    };
    let Some(least) = count_in(least) else {
        return Err(SettingsError::Least);
    };
    let Some(most) = most_in(most) else {
        return Err(SettingsError::Most);
    };
    if is_below(most, least) {
        return Err(SettingsError::LeastAboveMost);
    }
    Ok(GcSettings {
        create,
        active,
        least,
        most,
    })
}
