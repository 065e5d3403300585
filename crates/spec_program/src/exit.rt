ghost use Rattle.std.specs.Prelude.{◌≡◌};
ghost use Rattle.spec_program.specs.Words.{status_of};

/// How the program ends.
#[derive(Clone, Copy, Debug, PartialEq, Eq)]
pub enum Exit {
    /// The whole output was written.
    Done,
    /// The words are no command.
    Words,
    /// The tree file is refused.
    Tree,
    /// The world file is refused, or a leaf has no row in it or no driver for its row.
    World,
    /// The run ended in a fault.
    Fault,
    /// The plan ended before its goals were reached.
    NoPlan,
    /// A file could not be read.
    Read,
    /// The output could not be written.
    Write,
    /// Want of memory.
    Memory,
    /// The rules file is refused, or what its rules make of the tree.
    Rules,
    /// A line of a host is refused.
    Request,
    /// The file of expectations is refused.
    Expect,
    /// The run does not meet an expectation.
    Unmet,
    /// Two leaves with the listed IDs may be held together.
    NotExclusive,
}

impl Exit {
    /// The status of the process.
    pub fn status(self) -> u8
        ensures { result ≡ status_of self }
    {
        match self {
            Exit::Done => 0,
            Exit::Words => 2,
            Exit::Tree => 3,
            Exit::World => 4,
            Exit::Fault => 5,
            Exit::NoPlan => 6,
            Exit::Read => 7,
            Exit::Write => 8,
            Exit::Memory => 9,
            Exit::Rules => 10,
            Exit::Request => 11,
            Exit::Expect => 12,
            Exit::Unmet => 13,
            Exit::NotExclusive => 14,
        }
    }
}
