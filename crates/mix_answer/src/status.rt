// How a command ends.
ghost use Rattle.std.specs.Prelude.{◌≡◌};
ghost use Rattle.mix_answer.specs.Status.{code_of};

/// How a command ends. Its number is the status of the program.
#[derive(Clone, Copy)]
pub enum Status {
    /// 0: the command was done, and each dependency that it compiles was built.
    Done,
    /// 1: some dependency failed.
    SomeFailed,
    /// 2: the words are no command, or the count of partitions is none.
    BadWords,
    /// 3: a text is refused, or a checksum, or a limit is passed.
    Refused,
    /// 4: the declarations can't be brought together, or need one another in a cycle, or no releases fit.
    Conflict,
    /// 5: the store failed where it was read.
    ReadFault,
    /// 6: a folder of the build tree failed, or the store where it was written.
    TreeFault,
    /// 7: no partition is left.
    Died,
    /// 8: memory ran out.
    OutOfMemory,
    /// 9: a project, a path, a package, its lock or its files are missing.
    Missing,
    /// 10: the sink failed.
    WriteFault,
    /// 11: no partition was started.
    MakerFault,
}

impl Status {
    /// The number that the program ends with.
    pub fn code(self) -> u8
        ensures { result ≡ code_of self }
    {
        match self {
            Status::Done => 0,
            Status::SomeFailed => 1,
            Status::BadWords => 2,
            Status::Refused => 3,
            Status::Conflict => 4,
            Status::ReadFault => 5,
            Status::TreeFault => 6,
            Status::Died => 7,
            Status::OutOfMemory => 8,
            Status::Missing => 9,
            Status::WriteFault => 10,
            Status::MakerFault => 11,
        }
    }
}
