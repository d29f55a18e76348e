//! How a call of the program ended.

ghost use Rattle.std.specs.Prelude.{◌≡◌};

/// How a call of the program ended.
#[derive(Clone, Copy, Debug, PartialEq, Eq)]
pub enum Status {
    /// The command was carried out, and its answer is the hoped-for one.
    Done,
    /// The command was carried out, and the answer is no.
    No,
    /// An input was refused.
    Refused,
    /// The search's budget was spent.
    BudgetSpent,
    /// A file could not be read, or the answer could not be written.
    OutsideFault,
    /// Memory was refused, and nothing was written.
    Memory,
    /// The words are no command.
    Usage,
}

impl Status {
    ghost use Rattle.stp_cli.specs.Exit.{exit_number};

    /// The number that the process ends with.
    pub fn exit_number(self) -> u8
        ensures { result ≡ exit_number self }
    {
        match self {
            Status::Done => 0,
            Status::No => 1,
            Status::Refused => 2,
            Status::BudgetSpent => 3,
            Status::OutsideFault => 4,
            Status::Memory => 5,
            Status::Usage => 6,
        }
    }
}
