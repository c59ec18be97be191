//! How a run of a program ends.
ghost use Rattle.std.specs.Prelude.{◌≡◌};
ghost use Rattle.zone_report.specs.Notices.{exit_status};

/// How the program ended, as its exit status.
#[derive(Clone, Copy, Debug, PartialEq, Eq)]
pub enum Status {
    /// The transfer ended well, and the report was written.
    Done,
    /// The transfer was refused, and the report was written.
    Refused,
    /// The words have no form, and the usage line was written.
    Usage,
    /// A line of the script isn't read or is refused, and its number was written.
    Script,
    /// The source failed.
    SourceFault,
    /// The sink failed; it may have taken a first part of what was to be written.
    SinkFault,
    /// Memory ran out.
    Memory,
    /// The link failed, and the report was written.
    LinkFault,
    /// The script has more than 16,777,216 octets.
    TooLong,
}

impl Status {
    /// The exit status, 0 to 8.
    pub fn code(self) -> u8
        ensures { result ≡ exit_status self }
    {
        match self {
            Status::Done => 0,
            Status::Refused => 1,
            Status::Usage => 2,
            Status::Script => 3,
            Status::SourceFault => 4,
            Status::SinkFault => 5,
            Status::Memory => 6,
            Status::LinkFault => 7,
            Status::TooLong => 8,
        }
    }
}
