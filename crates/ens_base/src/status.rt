ghost use Rattle.std.specs.Prelude.{◌≡◌};
ghost use Rattle.ens_base.specs.Statuses.{status_number};

/// How a job of a program ended. Its number is the exit status of the process.
#[derive(Clone, Copy, Debug, PartialEq, Eq)]
pub enum Status {
    /// 0: the job ran to its end.
    Done,
    /// 1: the arguments are not a valid command line.
    Usage,
    /// 2: the schedule has a bad line.
    Schedule,
    /// 3: too many members of a view were reverted.
    Premise,
    /// 4: reading the input failed.
    ReadFault,
    /// 5: writing the output failed.
    WriteFault,
    /// 6: two different strings have the same MD5.
    Clash,
    /// 7: a disk failed, or the fact file does not hold a fact.
    StoreFault,
    /// 8: the network failed.
    LinkFault,
    /// 9: a limit on lines, messages or kept strings was exceeded.
    Limit,
    /// 10: out of memory.
    Memory,
    /// 12: a tree cannot be backed up, or a backup is damaged.
    Backup,
}

impl Status {
    /// Returns the exit status, from 0 to 10, or 12.
    pub fn number(self) -> u8
        ensures { result ≡ status_number self }
    {
        match self {
            Status::Done => 0,
            Status::Usage => 1,
            Status::Schedule => 2,
            Status::Premise => 3,
            Status::ReadFault => 4,
            Status::WriteFault => 5,
            Status::Clash => 6,
            Status::StoreFault => 7,
            Status::LinkFault => 8,
            Status::Limit => 9,
            Status::Memory => 10,
            Status::Backup => 12,
        }
    }
}
