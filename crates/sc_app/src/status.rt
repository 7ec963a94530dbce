ghost use Rattle.std.specs.Prelude.{◌≡◌};
ghost use Rattle.sc_app.specs.Statuses.{code_of, status_of};

/// A limit that can be passed.
#[derive(Clone, Copy, Debug, PartialEq, Eq)]
pub enum Which {
    /// More files than the checker takes.
    Files,
    /// A file of more than 1,048,576 bytes.
    FileBytes,
    /// Files of more than 4,194,304 bytes together.
    TotalBytes,
    /// More than 32,768 types.
    Types,
}

/// How a run ended.
#[derive(Clone, Copy, Debug, PartialEq, Eq)]
pub enum Status {
    /// The report has no diagnostic.
    Clean,
    /// The report has diagnostics.
    Found,
    /// The words are no command.
    Usage,
    /// The tree could not be read.
    ReadFault,
    /// The sink did not take all bytes.
    WriteFault,
    /// A limit was passed.
    Limit(Which),
    /// Memory was not found.
    OutOfMemory,
}

impl Status {
    /// The status of a report with so many errors.
    pub(crate) fn of_errors(errors: usize) -> Status
        ensures { result ≡ status_of errors }
    {
        if errors == 0 {
            Status::Clean
        } else {
            Status::Found
        }
    }

    /// The exit status of the program, from 0 to 6.
    pub fn code(self) -> u8
        ensures { result ≡ code_of self }
    {
        match self {
            Status::Clean => 0,
            Status::Found => 1,
            Status::Usage => 2,
            Status::ReadFault => 3,
            Status::WriteFault => 4,
            Status::Limit(_) => 5,
            Status::OutOfMemory => 6,
        }
    }
}
