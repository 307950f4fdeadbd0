// How a place of a plan is named.
ghost use Rattle.std.specs.Prelude.{◌≡◌};
ghost use Rattle.mix_report.specs.App.{app_at};

use compile_model::Job;

/// The app of the job at a place, and no bytes where the place is no job's.
pub(crate) fn app_at(jobs: &[Job], place: u32) -> &[u8]
    ensures { result.now ≡ app_at jobs.now place }
{
    match jobs.get(place as usize) {
        Some(job) => job.app.as_str().as_bytes(),
        None => b"",
    }
}
