//! Why a plane refuses.

/// A moment that was asked for is earlier than the present one.
#[derive(Clone, Copy, Debug, PartialEq, Eq)]
pub struct ClockBack {
    /// The present moment, in whole seconds from 1970.
    pub now: u64,
}

/// Something was written already, and by other settings than these.
#[derive(Clone, Copy, Debug, PartialEq, Eq)]
pub struct SettingsKept;

/// Why a report is not taken.
#[derive(Clone, Copy, Debug, PartialEq, Eq)]
pub enum ReportError {
    /// No Revision of the name stands.
    NoSuchRevision,
    /// Out of memory.
    Memory,
}
