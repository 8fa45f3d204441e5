//! Reading a moment, by the numbers in its text.
ghost use Rattle.std.specs.Prelude.{◌≡◌, ◌≤◌, ◌<◌, ◌+◌, ◌/◌, ◌%◌, ◌↔◌, ℕ, pos, true, length, IfSome, Some};
ghost use Rattle.jiff.specs.Words.{epoch_day, IsYmd};
ghost use Rattle.jiff_core.specs.declared.civil.date.Date.{Date as Plain};
ghost use Rattle.serve_names.specs.Moments.{IsMomentText, moment_bytes, last_moment};
ghost use Rattle.serve_names.specs.Fields.{pair_of, fields_of, fields_text, AreSmall};

use crate::same::is_same;
use jiff::civil::Date;

/// The numbers of a moment's text.
#[derive(Clone, Copy)]
pub(crate) struct Fields {
    pub year: u64,
    pub month: u64,
    pub day: u64,
    pub hour: u64,
    pub minute: u64,
    pub second: u64,
}

/// What two digits write, and some number for other bytes.
fn pair(high: u8, low: u8) -> u64
    ensures value { result ≡ pair_of high low }
    ensures bound { result < 2_300 }
{
    high.saturating_sub(48) as u64 * 10 + low.saturating_sub(48) as u64
}

/// What stands at the places of the digits.
fn digit_fields(bytes: &[u8]) -> Fields
    requires { length bytes.now ≡ 20 }
    ensures { result ≡ fields_of bytes.now }
{
    Fields {
        year: pair(bytes[0], bytes[1]) * 100 + pair(bytes[2], bytes[3]),
        month: pair(bytes[5], bytes[6]),
        day: pair(bytes[8], bytes[9]),
        hour: pair(bytes[11], bytes[12]),
        minute: pair(bytes[14], bytes[15]),
        second: pair(bytes[17], bytes[18]),
    }
}

/// Whether the clock has the time of day, and each number its digits.
fn are_small(fields: Fields) -> bool
    ensures { (result ≡ true) ↔ AreSmall fields }
{
    fields.year < 10_000
        && fields.month < 100
        && fields.day < 100
        && fields.hour < 24
        && fields.minute < 60
        && fields.second < 60
}

/// The first of two digits.
fn tens(number: u64) -> u8
    requires { number < 100 }
    ensures { result ≡ 48 + number / 10 }
{
    b'0' + (number / 10) as u8
}

/// The second one.
fn ones(number: u64) -> u8
    ensures { result ≡ 48 + number % 10 }
{
    b'0' + (number % 10) as u8
}

/// The text of the fields.
fn text_of(fields: Fields) -> [u8; 20]
    requires { AreSmall fields }
    ensures { result ≡ fields_text fields }
{
    [
        tens(fields.year / 100),
        ones(fields.year / 100),
        tens(fields.year % 100),
        ones(fields.year % 100),
        b'-',
        tens(fields.month),
        ones(fields.month),
        b'-',
        tens(fields.day),
        ones(fields.day),
        b'T',
        tens(fields.hour),
        ones(fields.hour),
        b':',
        tens(fields.minute),
        ones(fields.minute),
        b':',
        tens(fields.second),
        ones(fields.second),
        b'Z',
    ]
}

/// The days from 1970-01-01 to the date of the fields, if there is one and it isn't before that day.
fn days_of(fields: Fields) -> Option<u64>
    requires { AreSmall fields }
    ensures found { IfSome result (λ k. (d : Plain)
        × (IsYmd (pos fields.year) (pos fields.month) (pos fields.day) d × (epoch_day d ≡ pos k))) }
    ensures finds { (d : Plain) (k : ℕ) → IsYmd (pos fields.year) (pos fields.month) (pos fields.day) d
        → epoch_day d ≡ pos k → result ≡ Some k }
    ensures bound { IfSome result (λ k. k ≤ 2_932_896) }
{
    match Date::new(fields.year as i16, fields.month as i8, fields.day as i8) {
        Ok(date) => {
            let day = date.to_plain().to_unix_epoch_day();
            if day < 0 { None } else { Some(day as u64) }
        }
        Err(_) => None,
    }
}

/// The moment that the bytes write, in exactly the form of `2024-05-01T10:00:00Z`: a real date from
/// 1970 on, an hour below 24, and minutes and seconds below 60.
///
/// `None` for all other bytes.
pub fn read_moment(bytes: &[u8]) -> Option<u64>
    ensures found { IfSome result (λ n. (n ≤ last_moment) × (bytes.now ≡ moment_bytes n)) }
    ensures finds { (n : ℕ) → n ≤ last_moment → bytes.now ≡ moment_bytes n → result ≡ Some n }
    ensures civil { IfSome result (λ n. IsMomentText n bytes.now) }
{
    if bytes.len() != 20 {
        return None;
    }
    let fields = digit_fields(bytes);
    if !are_small(fields) {
        return None;
    }
    if !is_same(bytes, text_of(fields).as_slice()) {
        return None;
    }
    let days = days_of(fields)?;
    Some(days * 86_400 + fields.hour * 3_600 + fields.minute * 60 + fields.second)
}
