//! The statuses of calls, and the exit statuses of the program.
ghost use Rattle.std.specs.Prelude.{◌≡◌};
ghost use Rattle.tower.specs.Outcomes.{status_number};

/// How a call ended.
#[derive(Debug, Clone, Copy, PartialEq, Eq)]
pub enum Status {
    /// The input was read to its end, and the whole answer was written.
    Ok,
    /// Memory ran out. Nothing was written.
    Memory,
    /// The arguments are not those of a command. Nothing was read.
    Usage,
    /// The source failed. Nothing was written.
    ReadFault,
    /// The sink failed. It took a prefix of the answer.
    WriteFault,
    /// The source has invalid UTF-8.
    Utf8,
    /// The source has a lexical error.
    Token,
    /// The source has a syntax error.
    Syntax,
    /// A name or a type of the program is wrong.
    Resolve,
    /// The program is not reversible.
    Check,
    /// A limit is passed.
    Limit,
    /// The text of a state is wrong.
    BadState,
    /// The text of a gate file is wrong.
    BadGateText,
    /// A line of bits is wrong.
    BitsLength,
    /// A file of level t can't be simulated.
    LevelT,
    /// A run has no result on a state.
    Stuck,
    /// The source is a program that is not compiled yet.
    NotBuilt,
}

impl Status {
    /// The exit status of the program.
    pub fn number(&self) -> u8
        ensures { result ≡ status_number self.now }
    {
        match self {
            Status::Ok => 0,
            Status::Memory => 1,
            Status::Usage => 2,
            Status::ReadFault => 3,
            Status::WriteFault => 4,
            Status::Utf8 => 10,
            Status::Token => 11,
            Status::Syntax => 12,
            Status::Resolve => 13,
            Status::Check => 14,
            Status::Limit => 15,
            Status::BadState => 16,
            Status::BadGateText => 17,
            Status::BitsLength => 18,
            Status::LevelT => 19,
            Status::Stuck => 20,
            Status::NotBuilt => 30,
        }
    }
}
