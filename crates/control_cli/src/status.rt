//! How a run ended.
ghost use Rattle.std.specs.Prelude.{◌≡◌};
ghost use Rattle.control_cli.specs.Status.{number_of, word_of};

/// How a run ended.
#[derive(Clone, Copy, Debug, PartialEq, Eq)]
pub enum Status {
    /// All that was asked for was done.
    Done,
    /// The words are outside the grammar.
    Usage,
    /// The source failed.
    ReadFault,
    /// The sink failed.
    WriteFault,
    /// The input ended inside a request.
    Cut,
    /// The gate failed.
    GateFault,
    /// A head was refused.
    BadRequest,
    /// The manifest was refused.
    ManifestRefused,
    /// Out of memory.
    Memory,
    /// The input is longer than a session takes.
    TooLong,
    /// A poll isn't followed.
    PollRefused,
}

impl Status {
    /// The number with which the program exits.
    pub fn number(&self) -> u8
        ensures { result ≡ number_of self.now }
    {
        match self {
            Status::Done => 0,
            Status::Usage => 2,
            Status::ReadFault => 3,
            Status::WriteFault => 4,
            Status::Cut => 5,
            Status::GateFault => 6,
            Status::BadRequest => 7,
            Status::ManifestRefused => 8,
            Status::Memory => 9,
            Status::TooLong => 10,
            Status::PollRefused => 11,
        }
    }

    /// The status's name.
    pub fn word(&self) -> &'static str
        ensures { result.now ≡ word_of self.now }
    {
        match self {
            Status::Done => "Done",
            Status::Usage => "Usage",
            Status::ReadFault => "ReadFault",
            Status::WriteFault => "WriteFault",
            Status::Cut => "Cut",
            Status::GateFault => "GateFault",
            Status::BadRequest => "BadRequest",
            Status::ManifestRefused => "ManifestRefused",
            Status::Memory => "Memory",
            Status::TooLong => "TooLong",
            Status::PollRefused => "PollRefused",
        }
    }
}
