// What the winner of an app declares in turn.
ghost use Rattle.std.specs.Prelude.{◌≡◌, ℕ, List, Option, Err, IfOk, IfErr, IfSome, length};
ghost use Rattle.mx_base.specs.Blame.{Blame, AnswersBy, fails};
ghost use Rattle.mx_base.specs.Blame.Blame.{Input};
ghost use Rattle.mx_base.specs.Causes.{Counted};
ghost use Rattle.dep_options.specs.declared.decl.Decl.{Decl};
ghost use Rattle.dep_rows.specs.Rows.{ChildrenOf, AnswersOnce};
ghost use Rattle.dep_rows.specs.Tally.{one_more};
ghost use Rattle.dep_rows.specs.declared.tally.Tally.{Tally};

use dep_options::Decl;
use mx_base::AppName;
use std::alloc::Global;

/// Knows the children of a winner: what the app declares in turn.
pub trait Children {
    type Fault: Drop;

    /// What is known of the apps.
    ghost Known: { Type 0 };

    /// The children of each winner, or why they can't be had, by what is known.
    ghost children_of: { Known → ChildrenOf Self.Fault };

    /// What it knows, where it tells that.
    ghost meaning: { Self → Option Known };

    /// How often the outside failed. The count never falls.
    ghost faults: { Self → ℕ };

    /// The calls that gave declarations.
    ghost tally: { Self → Tally };

    /// Whom a fault blames.
    ghost blame: { Self.Fault → Blame };

    /// What it was made over.
    ghost Basis: { Type 0 };

    ghost made_over: { Self → Basis };

    /// What holds of it between calls.
    ghost stands: { Self → Type 0 };

    /// The children of the app with this winner.
    fn children(
        &mut self,
        alloc: Global,
        app: &AppName,
        winner: &Decl,
    ) -> Result<Vec<Decl>, Self::Fault>
        requires { stands self.old }
        ensures answer { IfSome (meaning self.old) (λ known.
            AnswersBy (λ decls. decls.items) blame result (children_of known app.now winner.now)) }
        ensures meaning { meaning self.new ≡ meaning self.old }
        ensures made_over { made_over self.new ≡ made_over self.old }
        ensures stands { stands self.new }
        ensures given { IfOk result (λ decls.
            tally self.new ≡ one_more (tally self.old) (length decls.items)) }
        ensures refused { IfErr result (λ _. tally self.new ≡ tally self.old) }
        ensures cause { Counted (faults self.old) (faults self.new) (fails blame result) };

    /// Each winner has one answer at most.
    ghost one: { (object : Self) → IfSome (meaning object) (λ known.
        AnswersOnce (children_of known)) };

    /// A fault that is told is a refusal.
    ghost told: { (object : Self) (app : List ℕ) (winner : Decl) (fault : Self.Fault) →
        IfSome (meaning object) (λ known.
        children_of known app winner (Err fault) → blame fault ≡ Input) };
}
