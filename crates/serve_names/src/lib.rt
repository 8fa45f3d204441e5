//! Names, counts, durations, moments and uids as texts: which bytes are one, what number they
//! write, and the text of a number.
//!
//! What only reads takes no memory. What writes takes an allocator, and can fail where it is out
//! of memory alone.
#![tactic(auto)]

mod counts;
mod domains;
mod durations;
mod fields;
mod generated;
mod labels;
mod moments;
mod padding;
mod same;
mod uids;

pub use counts::read_count;
pub use domains::is_domain;
pub use durations::read_duration;
pub use fields::read_moment;
pub use generated::generated_name;
pub use labels::is_label;
pub use moments::moment_text;
pub use serve_io::LAST_MOMENT;
pub use uids::{read_uid, uid_text};
