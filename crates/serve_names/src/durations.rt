//! Durations, as `1h30m5s`.
ghost use Rattle.std.specs.Prelude.{◌≡◌, ◌<◌, ◌^◌, ℕ, Some, IfSome};
ghost use Rattle.serve_names.specs.Durations as spec;

use crate::counts::{MOST_DIGITS, is_digit, read_count};
use serve_io::LAST_MOMENT;

const SECONDS_OF_HOUR: u64 = 3_600;

const SECONDS_OF_MINUTE: u64 = 60;

/// How many digits stand first.
fn leading_digits(bytes: &[u8]) -> usize
    ensures { result ≡ spec.run_of bytes.now }
{
    for i in 0..bytes.len() {
        if !is_digit(bytes[i]) {
            return i;
        }
    }
    bytes.len()
}

/// The number of the first part and what follows it, if that part has the unit; otherwise 0, and
/// the bytes as they are.
fn part<'a>(bytes: &'a [u8], unit: u8) -> (u64, &'a [u8])
    ensures value { result.0 ≡ spec.part_of unit bytes.entry.now }
    ensures rest { result.1.now ≡ spec.after_part unit bytes.entry.now }
    ensures bound { result.0 < 10 ^ 10 }
{
    let digits = leading_digits(bytes);
    if digits == 0 || digits > MOST_DIGITS || digits >= bytes.len() {
        return (0, bytes);
    }
    if bytes[digits] != unit {
        return (0, bytes);
    }
    match read_count(&bytes[..digits]) {
        Some(number) => (number, &bytes[digits + 1..]),
        None => (0, bytes),
    }
}

/// The seconds of the parts together, if nothing else stands in the bytes.
#[tactic(auto, unfolding(crate::specs::Durations::duration_of))]
fn total_of_parts(bytes: &[u8]) -> Option<u64>
    ensures { result ≡ spec.duration_of bytes.now }
{
    if bytes.is_empty() {
        return None;
    }
    let (hours, rest) = part(bytes, b'h');
    let (minutes, rest) = part(rest, b'm');
    let (seconds, rest) = part(rest, b's');
    if !rest.is_empty() {
        return None;
    }
    let total = hours * SECONDS_OF_HOUR + minutes * SECONDS_OF_MINUTE + seconds;
    if total > LAST_MOMENT {
        return None;
    }
    Some(total)
}

/// The seconds of a text as `1h30m5s`: one to three parts in the order of hours, minutes and
/// seconds, each of 1 to 10 digits and its unit `h`, `m` or `s`.
///
/// The answer is at most 253,402,300,799, and `None` for all other bytes.
pub fn read_duration(bytes: &[u8]) -> Option<u64>
    ensures value { result ≡ spec.duration_of bytes.now }
    ensures found { IfSome result (λ n. spec.IsDuration n bytes.now) }
    ensures finds { (n : ℕ) → spec.IsDuration n bytes.now → result ≡ Some n }
{
    total_of_parts(bytes)
}
