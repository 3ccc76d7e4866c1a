//! How a run ends.
ghost use Rattle.std.specs.Prelude.{◌≡◌};
ghost use Rattle.flex_io.specs.Status.{code_of};

/// How a run of a program ended.
#[derive(Clone, Copy)]
pub enum Status {
    /// The whole output was written, and every case in it is certified.
    Done,
    /// The whole output was written, and some case in it is uncertified.
    Uncertified,
    /// The text was refused.
    Refused,
    /// The words of the command line have none of the forms.
    Usage,
    /// The source failed.
    ReadFault,
    /// A sink failed.
    WriteFault,
    /// Memory ran out.
    NoMemory,
}

/// The exit code of a status, 0 to 6.
pub fn code(s: Status) -> u8
    ensures { result ≡ code_of s }
{
    match s {
        Status::Done => 0,
        Status::Uncertified => 1,
        Status::Refused => 2,
        Status::Usage => 3,
        Status::ReadFault => 4,
        Status::WriteFault => 5,
        Status::NoMemory => 6,
    }
}
