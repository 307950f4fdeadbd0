// How a command ends.
ghost use Rattle.std.specs.Prelude.{◌≡◌};
ghost use Rattle.mix_main.specs.Status.{code_of};

/// How a command ends. Its number is the status of the program.
#[derive(Clone, Copy)]
pub enum Status {
    /// 0: the command was done, and each dependency that it compiles was built.
    Done,
    /// 1: some dependency failed.
    SomeFailed,
    /// 2: the words are no command.
    BadWords,
    /// 3: a text of the project is refused, or a limit is passed.
    Refused,
    /// 4: the declarations can't be brought together, or need one another in a cycle.
    Conflict,
    /// 5: the store failed.
    ReadFault,
    /// 6: a build folder failed.
    TreeFault,
    /// 7: the compiler died.
    Died,
    /// 8: memory ran out.
    OutOfMemory,
    /// 9: a project, a path or the lock of a package is missing.
    Missing,
    /// 10: the sink failed.
    WriteFault,
}

impl Status {
    /// The number that the program ends with.
    pub fn code(self) -> u8
        ensures { result ≡ code_of self }
    {
        match self {
            Status::Done => 0,
            Status::SomeFailed => 1,
            Status::BadWords => 2,
            Status::Refused => 3,
            Status::Conflict => 4,
            Status::ReadFault => 5,
            Status::TreeFault => 6,
            Status::Died => 7,
            Status::OutOfMemory => 8,
            Status::Missing => 9,
            Status::WriteFault => 10,
        }
    }
}
