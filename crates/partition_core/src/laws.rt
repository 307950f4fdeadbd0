// What holds after every legal history.
ghost use Rattle.std.specs.Prelude.{◌≡◌, ◌≤◌, ◌+◌, ◌*◌, ◌↔◌, Some, None, ℕ, List, length, map, count_by};
ghost use Rattle.compile_model.specs.declared.outcome.Outcome.{Outcome};
ghost use Rattle.compile_model.specs.Content.{Content};
ghost use Rattle.compile_model.specs.Planned.{ArePlanned};
ghost use Rattle.compile_model.specs.Seq.{seq};
ghost use Rattle.partition_core.specs.declared.event.Event.{Event};
ghost use Rattle.partition_core.specs.State.{Opening};
ghost use Rattle.partition_core.specs.Counts.{is_start, is_back, is_back_of, count_below, is_compiled};
ghost use Rattle.partition_core.specs.Steps.{IsLegal};
ghost use Rattle.partition_core.specs.Refusals.{refusal};
ghost use Rattle.partition_core.specs.Nexts.{AreSettled};
ghost use Rattle.partition_core.specs.Histories.{Legal, Faithful, Sound, Agrees, replay};

/// Whatever legal history the partitions make, each fate is the one of compiling job after job.
pub fn confluence()
    ensures each { (compile : Content → Outcome) (o : Opening) (events : List Event)
        → ArePlanned o.plan.jobs → Sound compile o → Legal o events → Faithful compile o events
        → Agrees (replay o events).fates (seq compile o.plan.jobs) }
    ensures all { (compile : Content → Outcome) (o : Opening) (events : List Event)
        → ArePlanned o.plan.jobs → Sound compile o → Legal o events → Faithful compile o events
        → AreSettled (replay o events).fates → (replay o events).fates
        ≡ map Some (seq compile o.plan.jobs) }
{}

/// No legal history has more events than this.
pub fn bounded()
    ensures { (o : Opening) (events : List Event) → Legal o events
        → length events ≤ 2 * (length o.plan.jobs + o.partitions) }
{}

/// After a legal history an event is legal exactly where nothing refuses it.
pub fn refused_exactly()
    ensures { (o : Opening) (events : List Event) (event : Event) → Legal o events
        → (refusal o (replay o events) event ≡ None) ↔ IsLegal o (replay o events) event }
{}

/// Places are started at most as often as there are places that are compiled, and as places were given
/// back.
pub fn few_starts()
    ensures { (compile : Content → Outcome) (o : Opening) (events : List Event)
        → ArePlanned o.plan.jobs → Sound compile o → Legal o events → Faithful compile o events
        → count_by is_start events ≤ count_below (is_compiled compile o) (length o.plan.jobs) +
        count_by is_back events }
{}

/// A partition gives a place back once at most.
pub fn back_once()
    ensures { (o : Opening) (events : List Event) (by : ℕ) → Legal o events
        → count_by (is_back_of by) events ≤ 1 }
{}
