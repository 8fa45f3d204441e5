//! Reading a body.
ghost use Rattle.std.specs.Prelude.{IfOk};
ghost use Rattle.manifest_intake.specs.Bodies.{IsBody};

use json_tree::{Json, JsonError, read_json};
use std::alloc::{AllocError, Global};

/// The value that the bytes of a body are the text of; `None` exactly where `read_json` has a reason to refuse them.
pub fn read_body(alloc: Global, bytes: &[u8]) -> Result<Option<Json>, AllocError>
    ensures { IfOk result (IsBody bytes.now) }
{
    match read_json(alloc, bytes) {
        Ok(json) => Ok(Some(json)),
        Err(JsonError::Memory) => Err(AllocError),
        Err(_) => Ok(None),
    }
}
