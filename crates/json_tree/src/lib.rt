//! JSON values as plain data: a tree that callers match on, with an exact reader, an exact writer, and the texts,
//! lists and tables that it is made of. Types above are built from the same parts, and get exact copies and exact
//! tests of equality from [`Copied`] and [`Alike`].
//!
//! Whatever takes memory answers a `Result`, and where it is out of memory it leaves what was lent as it was.
#![tactic(auto)]

mod alike;
mod copied;
mod copy;
mod json_equal;
mod members;
mod read;
mod seq;
mod seq_equal;
mod text;
mod value;
mod write;

pub use alike::Alike;
pub use copied::Copied;
pub use members::{Members, Table};
pub use read::{JsonError, MAX_DEPTH, read_json};
pub use seq::Seq;
pub use text::Text;
pub use value::Json;
pub use write::{MAX_WRITTEN_DEPTH, have_same_text, reads_back, write_json};
