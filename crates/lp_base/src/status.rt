// How a run of the program ended.
ghost use Rattle.std.specs.Prelude.{◌≡◌};
ghost use Rattle.lp_base.specs.Status.{number_of};

/// How a run of the program ended. The program exits with the status' number.
#[derive(Clone, Copy, Debug, PartialEq, Eq)]
pub enum Status {
    /// All answers were given, or as many as were asked for.
    Done,
    /// The words are no command.
    Usage,
    /// A source text or the query is refused.
    Source,
    /// An object or an image is refused.
    Image,
    /// The budget of steps was used up.
    Steps,
    /// A goal's head is a variable.
    Flexible,
    /// Overflow, a zero divisor, or an operand that is no number or string.
    Arithmetic,
    /// A term passed a limit of the run.
    Deep,
    /// A file could not be read.
    ReadFault,
    /// A file or the output could not be written.
    WriteFault,
    /// Memory ran out.
    Memory,
    /// A limit on files, modules or programs was passed.
    Limit,
    /// A file is not there.
    Missing,
    /// Whether a negated goal holds stayed open.
    OpenNot,
    /// What was to be judged is not so: a text outside the pattern fragment, or a certificate that is no proof.
    No,
}

impl Status {
    /// The number that the program exits with.
    pub fn number(self) -> u8
        ensures { result ≡ number_of self }
    {
        match self {
            Status::Done => 0,
            Status::Usage => 1,
            Status::Source => 2,
            Status::Image => 3,
            Status::Steps => 4,
            Status::Flexible => 5,
            Status::Arithmetic => 6,
            Status::Deep => 7,
            Status::ReadFault => 8,
            Status::WriteFault => 9,
            Status::Memory => 10,
            Status::Limit => 11,
            Status::Missing => 12,
            Status::OpenNot => 13,
            Status::No => 14,
        }
    }
}
