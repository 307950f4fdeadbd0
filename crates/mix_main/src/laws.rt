// What follows from how a call ends.
ghost use Rattle.mix_main.specs.Laws.{BadWordsChangeNothing, PlansAreBuilt, RefusedFilesAreRefused, RefusedFilesLeaveTheTree};

use build_plan::one_plan;

/// Where the files have a plan and nothing fails outside, `deps.compile` builds it, unless memory runs out.
pub fn plans_are_built()
    ensures { PlansAreBuilt }
{
    one_plan();
}

/// Where the files are refused and nothing fails outside, `deps.compile` says so, unless memory runs out.
pub fn refused_files_are_refused()
    ensures { RefusedFilesAreRefused }
{
    one_plan();
}

/// Files that are refused leave the tree, whatever the status.
pub fn refused_files_leave_the_tree()
    ensures { RefusedFilesLeaveTheTree }
{
    one_plan();
}

/// Words that are no command change nothing, whatever the status.
#[tactic(auto, using(crate::proofs::LawLemmas::bad_words_change_nothing))]
pub fn bad_words_change_nothing()
    ensures { BadWordsChangeNothing }
{}
