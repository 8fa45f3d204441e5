//! Marks of requests.

/// What a request found: the journal's length and the moment.
#[derive(Clone, Copy, Debug, PartialEq, Eq)]
pub struct Mark {
    /// How many entries the journal had.
    pub position: u64,
    /// The moment of the request, in whole seconds from 1970 in UTC.
    pub moment: u64,
}
