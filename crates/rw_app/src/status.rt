//! How a command ended.

ghost use Rattle.std.specs.Prelude.{◌≡◌};
ghost use Rattle.rw_app.specs.Statuses.{number_of_status};

use rw_doc::DocFault;

/// How a command ended.
#[derive(Clone, Copy, Debug, PartialEq, Eq)]
pub enum Status {
    /// The command's text is written whole, and the source was read to its end.
    Done,
    /// The words are those of no command; the usage line is written.
    BadWords,
    /// The document has this first fault; the fault line is written.
    Refused(DocFault),
    /// The run stands at a box without fuel; the line of its end is written.
    Spent,
    /// The run ended at a failure; the line of its end is written.
    Failed,
    /// Memory ran out.
    NoMemory,
    /// Reading failed; nothing is written.
    ReadFault,
    /// Writing failed; what was written is a beginning of the text.
    WriteFault,
    /// More bytes than the limit came; nothing is written.
    TooLong,
}

impl Status {
    /// The number that the program ends with.
    pub fn number(&self) -> u8
        ensures { result ≡ number_of_status self.now }
    {
        match self {
            Status::Done => 0,
            Status::BadWords => 2,
            Status::Refused(_) => 3,
            Status::Spent => 4,
            Status::Failed => 5,
            Status::NoMemory => 6,
            Status::ReadFault => 7,
            Status::WriteFault => 8,
            Status::TooLong => 9,
        }
    }
}
