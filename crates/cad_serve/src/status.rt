// How a run ends.

/// How the program ends.
#[derive(Clone, Copy, Debug, PartialEq, Eq)]
pub enum Status {
    /// The work is whole.
    Done,
    /// The words aren't of a form that the program knows.
    Usage,
    /// The input failed.
    ReadFault,
    /// The output failed.
    WriteFault,
    /// The disk failed.
    DiskFault,
    /// Memory ran out.
    Memory,
    /// The disk stands for no World.
    BadStore,
    /// The input is longer than the program reads.
    InputBound,
}

impl Status {
    ghost use Rattle.std.specs.Prelude.{◌≡◌, option_map};
    ghost use Rattle.cad_serve.specs.Statuses.{status_number, status_line};

    /// The number with which the program ends.
    pub fn number(self) -> u8
        ensures { result ≡ status_number self }
    {
        match self {
            Status::Done => 0,
            Status::Usage => 2,
            Status::ReadFault => 3,
            Status::WriteFault => 4,
            Status::DiskFault => 5,
            Status::Memory => 6,
            Status::BadStore => 7,
            Status::InputBound => 8,
        }
    }

    /// The line that the program prints on standard error. None exactly where the work is whole.
    pub fn line(self) -> Option<&'static str>
        ensures { option_map (λ line. line.now) result ≡ status_line self }
    {
        match self {
            Status::Done => None,
            Status::Usage => Some("cadence: usage"),
            Status::ReadFault => Some("cadence: read fault"),
            Status::WriteFault => Some("cadence: write fault"),
            Status::DiskFault => Some("cadence: disk fault"),
            Status::Memory => Some("cadence: memory"),
            Status::BadStore => Some("cadence: bad store"),
            Status::InputBound => Some("cadence: input bound"),
        }
    }
}
