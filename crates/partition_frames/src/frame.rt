// Frames: what one process tells another.
use compile_model::How;
use mx_base::{AppName, Bytes, Names, RelPath, Text, Variables};

/// What a process that hands out jobs and one that compiles them tell each other.
#[derive(Drop)]
pub enum Frame {
    /// The first that a child sends.
    Hello {
        /// The secret that it was started with.
        cookie: Text,
        /// Which child it is.
        index: u32,
    },
    /// A dependency is to be compiled.
    Job {
        /// The number by which the verdict is known.
        number: u32,
        /// The name of the build.
        env: AppName,
        /// The app that is compiled.
        app: AppName,
        /// All that its declaration says of how it is compiled, as a text.
        options: Bytes,
        /// How it is compiled.
        how: How,
        /// Variables for a program that compiles it.
        system_env: Variables,
        /// Its folder.
        dir: RelPath,
        /// The apps that it needs.
        needs: Names,
    },
    /// What became of a job, after all outputs were written.
    Verdict {
        /// The number of the job.
        number: u32,
        /// 0 where it was built.
        status: u32,
        /// What the compiler wrote.
        text: Bytes,
    },
    /// Nothing follows.
    Bye,
}
