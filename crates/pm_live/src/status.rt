//! How a call ended.
ghost use Rattle.std.specs.Prelude.{◌≡◌};
ghost use Rattle.pm_live.specs.Calls.{status_of, number_of};

use pm_serve::Served;

/// How a call ended.
#[derive(Clone, Copy, Debug, PartialEq, Eq)]
pub enum Status {
    /// All lines were answered, to the end of input.
    Done,
    /// Line 1 or 2 has a fault, or is missing, which the line written last says.
    Refused,
    /// There are words. Nothing was read or written.
    Usage,
    /// A read failed. The lines that came whole were answered.
    ReadFault,
    /// A write failed. A front of the answers was written.
    WriteFault,
    /// There was no memory to begin with. Nothing was read or written.
    NoMemory,
    /// There were 2^64 - 1 lines, or as many reads within a line, so as many bytes at least. The lines that came whole were
    /// answered.
    Spent,
}

/// The status that says how serving ended, by whether lines 1 and 2 had come.
pub(crate) fn status_of(served: Served, is_open: bool) -> Status
    ensures { result ≡ status_of served is_open }
{
    match served {
        Served::End => if is_open {
            Status::Done
        } else {
            Status::Refused
        },
        Served::Closed => Status::Refused,
        Served::ReadFault => Status::ReadFault,
        Served::WriteFault => Status::WriteFault,
        Served::Spent => Status::Spent,
    }
}

impl Status {
    /// The number with which the program ends.
    pub fn number(self) -> u8
        ensures { result ≡ number_of self }
    {
        match self {
            Status::Done => 0,
            Status::Refused => 1,
            Status::Usage => 2,
            Status::ReadFault => 3,
            Status::WriteFault => 4,
            Status::NoMemory => 5,
            Status::Spent => 3,
        }
    }
}
