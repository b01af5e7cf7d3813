// The statuses with which a call of the tool ends.
ghost use Rattle.std.specs.Prelude.{◌≡◌};
ghost use Rattle.answers.specs.Statuses.{number_of, is_written};

/// How a call of the tool ended. The program ends with its number.
#[derive(Clone, Copy, Debug, PartialEq, Eq)]
pub enum Status {
    /// 0: what was asked for stands in the output.
    Done,
    /// 1: the answer is no, and the output says why.
    No,
    /// 2: the words are of no known shape.
    Usage,
    /// 3: a file is refused.
    Refused,
    /// 4: something is larger than the tool takes.
    Limit,
    /// 5: no monitor can be added.
    NoMonitor,
    /// 6: a file could not be read, or the output not be written.
    HostFault,
    /// 7: memory was wanting.
    Memory,
}

impl Status {
    /// Its number, from 0 to 7.
    pub fn number(self) -> u8
        ensures { result ≡ number_of self }
    {
        match self {
            Status::Done => 0,
            Status::No => 1,
            Status::Usage => 2,
            Status::Refused => 3,
            Status::Limit => 4,
            Status::NoMonitor => 5,
            Status::HostFault => 6,
            Status::Memory => 7,
        }
    }

    /// Whether a call that ends so writes its text, and complains of nothing.
    pub fn is_written(self) -> bool
        ensures { result ≡ is_written self }
    {
        match self {
            Status::Done | Status::No => true,
            _ => false,
        }
    }
}
