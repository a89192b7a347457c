//! The program's answers.
ghost use Rattle.std.specs.Prelude.{◌≡◌};
ghost use Rattle.call_stages.specs.Statuses.{status_number};

/// What the program answers.
#[derive(Clone, Copy, Debug, PartialEq, Eq)]
pub enum Status {
    /// All that was asked is written.
    Done,
    /// No command has these words.
    WordsRefused,
    /// The specification is refused.
    SpecRefused,
    /// No base is found for the specification and x.
    NoUpper,
    /// The tape ended before all was drawn.
    TapeEnded,
    /// 60 bits left a number open.
    Undecided,
    /// The limit of turns was reached.
    TurnLimit,
    /// A read failed.
    ReadFault,
    /// A write failed. A prefix of the text is written.
    WriteFault,
    /// Memory ran out. A prefix of the text that was made is written.
    OutOfMemory,
    /// A certificate is refused, or not valid.
    CertRefused,
    /// No vector is found for the fast bounds.
    NoFast,
    /// The specification has no pointed one.
    PointRefused,
    /// A text is no object, or not as it is printed.
    ObjectRefused,
    /// Objects of the specification aren't ranked, or none has this rank.
    RankRefused,
}

impl Status {
    /// The number with which the process exits.
    pub fn number(self) -> u8
        ensures { result ≡ status_number self }
    {
        match self {
            Status::Done => 0,
            Status::WordsRefused => 2,
            Status::SpecRefused => 3,
            Status::NoUpper => 4,
            Status::TapeEnded => 5,
            Status::Undecided => 6,
            Status::TurnLimit => 7,
            Status::ReadFault => 8,
            Status::WriteFault => 9,
            Status::OutOfMemory => 10,
            Status::CertRefused => 11,
            Status::NoFast => 12,
            Status::PointRefused => 13,
            Status::ObjectRefused => 14,
            Status::RankRefused => 15,
        }
    }
}
