// Children by a list, for callers without a project.
ghost use Rattle.std.specs.Prelude.{◌≡◌, ℕ, List, Some, IsFalse};
ghost use Rattle.std.proofs.Common.{sym, ◌∙◌};
ghost use Rattle.mx_base.specs.Blame.{AnswersBy, fails};
ghost use Rattle.dep_rows.specs.declared.list_children.ListAnswer.{ListAnswer};
ghost use Rattle.dep_rows.specs.ListChildren.{answer_for, told_by, list_blame, listed_is_reason};

use crate::children::Children;
use crate::decls::copied;
use crate::tally::Tally;
use dep_options::Decl;
use mx_base::{AppName, Faults, ListOf};
use std::alloc::{AllocError, Global};

/// What an app declares, or a reason why that isn't known.
#[derive(Drop)]
pub struct ListAnswer {
    pub app: AppName,
    pub children: Result<ListOf<Decl>, u32>,
}

/// Answers for some apps.
pub type ListAnswers = ListOf<ListAnswer>;

/// Why a call has no answer.
#[derive(Drop)]
pub enum ListFault {
    /// The list has this reason in place of children.
    Refused(u32),
    /// The plan let the call fail.
    Failed,
    OutOfMemory,
}

impl From<AllocError> for ListFault {
    ghost use Rattle.std.specs.Prelude.{◌≡◌};
    ghost use Rattle.dep_rows.specs.declared.list_children.ListFault.TheVariants.{OutOfMemory};

    ghost from_gives = { λ _ e. e ≡ OutOfMemory };

    fn from(_: AllocError) -> ListFault {
        ListFault::OutOfMemory
    }
}

/// Answers by the first entry for the app, and no children where there is none. The plan says
/// which calls fail.
#[derive(Drop)]
pub struct ListChildren<P> {
    answers: ListAnswers,
    plan: P,
    tally: Tally,
}

impl<P: Faults + Drop> ListChildren<P> {
    pub fn new(answers: ListAnswers, plan: P) -> ListChildren<P>
        ensures meaning { ⟦<ListChildren<P> as Children>⟧.meaning result ≡ Some answers }
        ensures faults { ⟦<ListChildren<P> as Children>⟧.faults result ≡ P.count plan }
    {
        ListChildren {
            answers,
            plan,
            tally: Tally::none(),
        }
    }
}

impl<P: Faults + Drop> Children for ListChildren<P> {
    type Fault = ListFault;

    ghost Known = { List ListAnswer };

    ghost children_of = { λ answers app winner answer. answer ≡ answer_for answers app };

    ghost meaning = { λ list. Some list.answers };

    ghost faults = { λ list. P.count list.plan };

    ghost tally = { λ list. list.tally };

    ghost blame = { list_blame };

    ghost Basis = { List ListAnswer };

    ghost made_over = { λ list. list.answers };

    ghost stands = { λ _. Unit {0} };

    ghost one = { λ list app winner answer other is also. is ∙ sym also };

    ghost told = { λ list app winner fault is. listed_is_reason list.answers app fault (sym is) };

    fn children(
        &mut self,
        alloc: Global,
        app: &AppName,
        _winner: &Decl,
    ) -> Result<Vec<Decl>, ListFault> {
        if self.plan.fails() {
            return Err(ListFault::Failed);
        }
        let decls = answer_for(alloc, self.answers.as_slice(), app)?;
        self.tally = self.tally.with(decls.len())?;
        Ok(decls)
    }
}

fn answer_for(alloc: Global, answers: &[ListAnswer], app: &AppName) -> Result<Vec<Decl>, ListFault>
    ensures answer { AnswersBy (λ decls. decls.items) list_blame result (λ answer.
        answer ≡ answer_for answers.now app.now) }
    ensures alone { IsFalse (fails list_blame result) }
{
    for answer in answers {
        if answer.app == *app {
            return told_by(alloc, answer);
        }
    }
    Ok(Vec::new(alloc))
}

fn told_by(alloc: Global, answer: &ListAnswer) -> Result<Vec<Decl>, ListFault>
    ensures answer { AnswersBy (λ decls. decls.items) list_blame result (λ told.
        told ≡ told_by answer.now.children) }
    ensures alone { IsFalse (fails list_blame result) }
{
    match &answer.children {
        Ok(decls) => Ok(copied(alloc, decls.as_slice())?),
        Err(reason) => Err(ListFault::Refused(*reason)),
    }
}
