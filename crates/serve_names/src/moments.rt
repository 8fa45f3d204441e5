//! Moments, in seconds from 1970-01-01T00:00:00Z, as `2024-05-01T10:00:00Z`.
ghost use Rattle.std.specs.Prelude.{◌≡◌, ◌≤◌, ◌<◌, ◌++◌, pos, IfOk, OnOk, string_bytes};
ghost use Rattle.jiff.specs.Words.{epoch_day, date_text};
ghost use Rattle.serve_names.specs.Moments.{IsMomentText, moment_bytes, clock_text, last_moment};

use crate::padding::push_two_digits;
use jiff::ToSpan;
use jiff::civil::{Date, date};
use json_tree::Text;
use std::alloc::{AllocError, Global};
use std::fmt::Write;

const SECONDS_OF_DAY: u64 = 86_400;

/// The length of a moment's text.
const TEXT_LEN: usize = 20;

/// The date that many days after 1970-01-01.
fn date_after(days: u64) -> Date
    requires { days ≤ 2_932_896 }
    ensures { epoch_day result ≡ pos days }
{
    date(1970, 1, 1) + (days as i64).days()
}

/// Adds the date, as `2024-05-01`.
fn push_date(text: &mut String, date: Date) -> Result<(), AllocError>
    ensures { OnOk result (string_bytes text.new ≡ string_bytes text.old ++ date_text date) }
{
    write!(text, "{date}")
}

/// Adds the time of day: `T`, and then as `10:00:00Z`.
fn push_clock(text: &mut String, second: u64) -> Result<(), AllocError>
    requires { second < 86_400 }
    ensures { OnOk result (string_bytes text.new ≡ string_bytes text.old ++ clock_text second) }
{
    text.push_str("T")?;
    push_two_digits(text, second / 3_600)?;
    text.push_str(":")?;
    push_two_digits(text, second / 60 % 60)?;
    text.push_str(":")?;
    push_two_digits(text, second % 60)?;
    text.push_str("Z")?;
    Ok(())
}

/// The moment as `2024-05-01T10:00:00Z`, of a moment up to 253,402,300,799, the last second of the
/// year 9999.
///
/// The date is the civil date that lies the moment's whole days of 86,400 seconds after 1970-01-01,
/// and the time of day is what is left of the last day. No instant is made of it, since those of
/// `jiff` end before the last moment.
pub fn moment_text(alloc: Global, moment: u64) -> Result<Text, AllocError>
    requires { moment ≤ last_moment }
    ensures text { IfOk result (λ t. t ≡ moment_bytes moment) }
    ensures civil { IfOk result (λ t. IsMomentText moment t) }
{
    let mut text = String::with_capacity(alloc, TEXT_LEN)?;
    push_date(&mut text, date_after(moment / SECONDS_OF_DAY))?;
    push_clock(&mut text, moment % SECONDS_OF_DAY)?;
    Text::new(alloc, text.as_str())
}
