//! How a session went.

/// Whether a session asks the clock for the moment of each request.
#[derive(Clone, Copy, Debug, PartialEq, Eq)]
pub enum ClockMode {
    /// Each request has the clock's next moment.
    Ask,
    /// The clock is left alone, and a request has no moment.
    Leave,
}

/// Why a head is refused.
#[derive(Clone, Copy, Debug, PartialEq, Eq)]
pub enum HeadFault {
    /// The bytes are no request head of HTTP/1.0 or HTTP/1.1.
    Malformed,
    /// It doesn't end within 8,192 bytes, or has more lines than its first, 64 fields and the empty one.
    HeadTooLarge,
    /// There are several fields `Content-Length`, or its value isn't one or more decimal digits.
    BadLength,
    /// There is a field `Transfer-Encoding`.
    TransferEncoding,
    /// The body has more than 65,536 bytes.
    BodyTooLarge,
}

/// How a session ended.
#[derive(Clone, Copy, Debug, PartialEq, Eq)]
pub enum SessionEnd {
    /// The source ended behind a whole request or before any, empty lines aside.
    Clean,
    /// A request asked for close, and was answered.
    Closed,
    /// The source ended inside a request.
    Cut,
    /// A head was refused, and the refusal was written whole.
    Bad(HeadFault),
    /// A read failed.
    ReadFault,
    /// A write failed.
    WriteFault,
    /// 4,294,967,295 bytes were taken, and a further read would be needed.
    TooLong,
    /// Out of memory.
    Memory,
}

/// What a session says of itself.
#[derive(Clone, Copy, Debug, PartialEq, Eq)]
pub struct SessionReport {
    /// How it ended.
    pub end: SessionEnd,
    /// How many requests have a reply that was written whole.
    pub answered: u64,
}
