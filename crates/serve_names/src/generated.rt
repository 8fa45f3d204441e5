//! The generated names of Revisions.
ghost use Rattle.std.specs.Prelude.{◌≡◌, IfOk};
ghost use Rattle.serve_names.specs.Generated.{generated_bytes};

use crate::padding::push_five_digits;
use json_tree::Text;
use std::alloc::{AllocError, Global};

/// The name of the Revision of that generation: the base, `-`, and the generation in decimal, with
/// zeros before it to five digits at least.
pub fn generated_name(alloc: Global, base: &Text, generation: u64) -> Result<Text, AllocError>
    ensures { IfOk result (λ name. name ≡ generated_bytes base.now generation) }
{
    let mut name = String::from_str(alloc, base.as_str())?;
    name.push_str("-")?;
    push_five_digits(&mut name, generation)?;
    Ok(Text::from_string(name))
}
