//! By the crate that is tried.
mod ends;
mod json;
mod names;
mod sessions;
