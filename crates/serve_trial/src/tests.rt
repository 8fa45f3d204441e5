//! The cases, in two tables.
mod bytes;
mod replays;
mod serves;
