// What holds of every build by several partitions.
ghost use Rattle.std.specs.Prelude.{◌≡◌, List, length};
ghost use Rattle.partition_core.specs.declared.event.Event.{Event};
ghost use Rattle.partition_core.specs.State.{Opening};
ghost use Rattle.partition_core.specs.Histories.{Legal};
ghost use Rattle.partition_face.specs.declared.counts.Counts.{Counts};
ghost use Rattle.partition_crew.specs.Build.{CountsOf};
ghost use Rattle.partition_build.specs.Built.{AreCountsOf, all_of};

use partition_face::Partition;

/// What all partitions have counted together is what the whole history says.
pub fn counts_add_up<P: Partition>()
    ensures { (o : Opening) (history : List Event) (old new : List Counts) → Legal o history
        → length old ≡ o.partitions → AreCountsOf P.lasting history old new
        → CountsOf P.lasting history (all_of old) (all_of new) }
{}
