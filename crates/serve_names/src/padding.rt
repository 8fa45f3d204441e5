//! Numbers with zeros before them.
ghost use Rattle.std.specs.Prelude.{◌≡◌, ◌<◌, ◌++◌, OnOk, false, string_bytes};
ghost use Rattle.std.specs.Fmt.{decimal, digits};
ghost use Rattle.jiff_fmt.specs.Text.{pad2};
ghost use Rattle.serve_names.specs.Padding.{at_least};

use std::alloc::AllocError;
use std::fmt::Write;

/// Adds the number in two decimal digits.
pub(crate) fn push_two_digits(text: &mut String, number: u64) -> Result<(), AllocError>
    requires { number < 100 }
    ensures { OnOk result (string_bytes text.new ≡ string_bytes text.old ++ pad2 number) }
{
    write!(text, "{number:02}")
}

/// Adds the number in five decimal digits at least.
pub(crate) fn push_five_digits(text: &mut String, number: u64) -> Result<(), AllocError>
    ensures { OnOk result (string_bytes text.new ≡ string_bytes text.old ++ at_least 5 (decimal number)) }
{
    write!(text, "{number:05}")
}

/// Adds the number in twelve lower-case hexadecimal digits at least.
pub(crate) fn push_twelve_hex_digits(text: &mut String, number: u64) -> Result<(), AllocError>
    ensures { OnOk result (string_bytes text.new ≡ string_bytes text.old ++ at_least 12 (digits 16 false number)) }
{
    write!(text, "{number:012x}")
}
