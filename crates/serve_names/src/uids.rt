//! Uids: numbers in the form of a UUID.
ghost use Rattle.std.specs.Prelude.{◌≡◌, ◌<◌, ◌≤◌, ◌^◌, ℕ, IfOk, IfSome, Some, length, true, false};
ghost use Rattle.std.specs.Fmt.{digits};
ghost use Rattle.std.specs.List.{list_all};
ghost use Rattle.std.specs.Char.{digit_value};
ghost use Rattle.std.specs.Str.Parse.{digits_value};
ghost use Rattle.serve_names.specs.Padding.{at_least};
ghost use Rattle.serve_names.specs.Uids as spec;

use crate::padding::push_twelve_hex_digits;
use crate::same::is_same;
use json_tree::Text;
use std::alloc::{AllocError, Global};

/// How many bytes stand before the number.
const PREFIX_LEN: usize = 24;

/// The most bytes of a uid: sixteen digits behind the prefix.
const MOST_LEN: usize = PREFIX_LEN + 16;

/// The uid as a text: `00000000-0000-4000-8000-` and the number in lower-case hexadecimal, with
/// zeros before it to twelve digits at least.
#[tactic(auto, unfolding(crate::specs::Uids::uid_bytes))]
pub fn uid_text(alloc: Global, uid: u64) -> Result<Text, AllocError>
    ensures { IfOk result (λ text. text ≡ spec.uid_bytes uid) }
{
    let mut text = String::with_capacity(alloc, MOST_LEN)?;
    text.push_str("00000000-0000-4000-8000-")?;
    push_twelve_hex_digits(&mut text, uid)?;
    Ok(Text::from_string(text))
}

fn is_hex_digit(byte: u8) -> bool
    ensures { result ≡ spec.is_hex_digit byte }
{
    (byte >= b'0' && byte <= b'9') || (byte >= b'a' && byte <= b'f')
}

fn has_hex_digits(bytes: &[u8]) -> bool
    ensures { result ≡ list_all spec.is_hex_digit bytes.now }
{
    bytes.iter().all(|byte| is_hex_digit(*byte))
}

/// Whether the bytes are the twelve digits or more of a number.
fn is_hex_number(bytes: &[u8]) -> bool
    ensures { result ≡ spec.is_hex_number bytes.now }
{
    if bytes.len() < 12 || bytes.len() > 16 || !has_hex_digits(bytes) {
        return false;
    }
    bytes.len() == 12 || bytes[0] != b'0'
}

/// The number that a lower-case hexadecimal digit writes.
fn hex_digit(byte: u8) -> u64
    requires { spec.is_hex_digit byte ≡ true }
    ensures { result ≡ digit_value byte }
{
    if byte <= b'9' {
        (byte - b'0') as u64
    } else {
        (byte - b'a') as u64 + 10
    }
}

/// The number that at most sixteen such digits write.
fn hex_number(bytes: &[u8]) -> u64
    requires digits { list_all spec.is_hex_digit bytes.now ≡ true }
    requires fits { length bytes.now ≤ 16 }
    ensures { result ≡ digits_value 16 bytes.now }
{
    let mut number = 0u64;
    for byte in bytes {
        number = number * 16 + hex_digit(*byte);
    }
    number
}

/// The uid that the bytes write, in exactly the form of `uid_text`.
///
/// `None` for all other bytes, those with upper-case digits among them.
pub fn read_uid(bytes: &[u8]) -> Option<u64>
    ensures found { IfSome result (λ uid. bytes.now ≡ spec.uid_bytes uid) }
    ensures finds { (uid : ℕ) → uid < 2 ^ 64 → bytes.now ≡ spec.uid_bytes uid → result ≡ Some uid }
{
    if bytes.len() < PREFIX_LEN {
        return None;
    }
    if !is_same(&bytes[..PREFIX_LEN], b"00000000-0000-4000-8000-") {
        return None;
    }
    let digits = &bytes[PREFIX_LEN..];
    if !is_hex_number(digits) {
        return None;
    }
    Some(hex_number(digits))
}
