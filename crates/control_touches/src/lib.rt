//! What an entry of the journal touches: the keys to which it may make something due.
//!
//! The crate has no calls. It says of each entry which keys it touches (`Touches`), and of the states of lawful journals
//! how their objects are named (`Named`). It proves, a controller at a time, that nothing becomes due to a key that no
//! entry touched since nothing was due to it (`Services`, `Configurations`, `Revisions`, `Collectors`, `Routes`), and that
//! to all but the Collector nothing becomes due as the moment moves (`Moments`).
#![tactic(auto)]
