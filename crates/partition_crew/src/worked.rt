// What comes of a place that was worked on.
ghost use Rattle.std.specs.Prelude.{◌≡◌};
ghost use Rattle.partition_crew.specs.Work.{worked_of};

use compile_model::Twin;
use partition_face::RunFault;

/// What came of a place that a partition worked on.
#[derive(Drop)]
pub enum Worked {
    /// It was built.
    Finished(Twin),
    /// It was compiled, with a status other than 0.
    Failed(Twin),
    /// The partition died, which its count of deaths shows.
    Died,
    /// The folder failed, which its count of faults shows.
    TreeFault,
    NoMemory,
}

impl Worked {
    // By the status of the outcome, or by the fault.
    pub(crate) fn of(compiled: Result<Twin, RunFault>) -> Worked
        ensures { result ≡ worked_of compiled }
    {
        match compiled {
            Ok(twin) => Worked::of_twin(twin),
            Err(RunFault::Died) => Worked::Died,
            Err(RunFault::Tree) => Worked::TreeFault,
            Err(RunFault::OutOfMemory) => Worked::NoMemory,
        }
    }

    fn of_twin(twin: Twin) -> Worked
        ensures { result ≡ worked_of (Ok twin) }
    {
        if twin.event.get().status == 0 {
            Worked::Finished(twin)
        } else {
            Worked::Failed(twin)
        }
    }
}
