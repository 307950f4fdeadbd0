// Laws of partitions over links.
ghost use Rattle.std.specs.Prelude.{ℕ, List};
ghost use Rattle.std.specs.List.{All};
ghost use Rattle.mx_base.specs.AppName.{IsAppName};
ghost use Rattle.compile_model.specs.declared.job.Job.{Job};
ghost use Rattle.compile_model.specs.Planned.{IsSound};
ghost use Rattle.partition_link.specs.Run.{MayBeWritten, asked};

/// Each job of a plan can be sent.
pub fn planned_jobs_are_sent()
    ensures { (runs : ℕ) (env : List ℕ) (job : Job) → IsSound job → IsAppName env → IsAppName job.app
        → All IsAppName job.need_apps → MayBeWritten (asked runs env job) }
{}
