// The commands.
ghost use Rattle.std.specs.Prelude.{◌≡◌, ◌<◌, ◌^◌};
ghost use Rattle.command_words.specs.Tasks.{file_count, limit_of};

/// A command, with the numbers that its options give.
#[derive(Clone, Copy, Debug, PartialEq, Eq)]
pub enum Command {
    /// `instrument FILE [--siphons N] [--monitors N]`: the program of a file, with monitors where it
    /// needs them.
    Instrument {
        /// The most minimal sets of mutexes and monitors, from 1 to 512; 256 unless it is given.
        siphons: u32,
        /// The most monitors, from 0 to 16; 16 unless it is given.
        monitors: u32,
    },
    /// `run FILE SCHEDULE INPUT`: the trace of a program that is run by a schedule on an input.
    Run,
    /// `runtime`: the C text of the calls of monitors.
    Runtime,
}

impl Command {
    /// How many files it reads.
    pub fn file_count(self) -> usize
        ensures { result ≡ file_count self }
    {
        match self {
            Command::Instrument { .. } => 1,
            Command::Run => 3,
            Command::Runtime => 0,
        }
    }

    /// The most bytes of the file at a place, from 0.
    pub fn limit(self, place: usize) -> usize
        ensures value { result ≡ limit_of self place }
        ensures small { result < 2 ^ 31 }
    {
        match self {
            Command::Run if place > 0 => 2097152,
            _ => 262144,
        }
    }
}
