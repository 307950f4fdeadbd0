// Each winner, in the order of its place, is asked for its children, whose rows come at the end.
ghost use Rattle.std.specs.Prelude.{◌≡◌, ◌≤◌, ◌<◌, IfOk, IfErr, IfSome, length, vec_len};
ghost use Rattle.mx_base.specs.Blame.{Answers, fails};
ghost use Rattle.mx_base.specs.Causes.{Counted};
ghost use Rattle.dep_rows.specs.Children.{rows_blame};
ghost use Rattle.dep_rows.specs.Growing.{BringsIn, Hinders};
ghost use Rattle.dep_rows.specs.Listed.{IsWithinLimit};
ghost use Rattle.dep_rows.specs.Refusal.{IsListing};
ghost use Rattle.dep_rows.specs.Rows.{most_rows};
ghost use Rattle.dep_rows.specs.Tally.{Asks, AsksOne, EndsWith};

use crate::children::Children;
use crate::decls::copied;
use crate::error::RowsError;
use crate::list::Rows;
use crate::listing::{Listing, MOST_ROWS};
use dep_options::Decl;
use std::alloc::Global;

/// The rows of the root and of all that its winners bring in.
pub fn rows<C: Children>(
    alloc: Global,
    root: &[Decl],
    children: &mut C,
) -> Result<Rows, RowsError<C::Fault>>
    requires { C.stands children.old }
    ensures answer { IfSome (C.meaning children.old) (λ known.
        Answers (rows_blame C.blame) result (IsListing (C.children_of known) root.now)) }
    ensures within { IfOk result (λ answer. IsWithinLimit answer) }
    ensures meaning { C.meaning children.new ≡ C.meaning children.old }
    ensures made_over { C.made_over children.new ≡ C.made_over children.old }
    ensures stands { C.stands children.new }
    ensures cause { Counted (C.faults children.old) (C.faults children.new)
        (fails (rows_blame C.blame) result) }
    ensures asks { Asks (length root.now) (C.tally children.old) (C.tally children.new) result }
{
    if root.len() > MOST_ROWS {
        return Err(RowsError::TooManyRows);
    }
    let decls = copied(alloc, root)?;
    let mut listing = Listing::new(alloc).with_all(None, decls)?;
    let mut asked = 0;
    while asked < listing.winners.len() {
        let winner = listing.winners[asked];
        listing = bring_in(alloc, listing, winner, children)?;
        asked += 1;
    }
    Ok(Rows::of(listing))
}

/// Asks a winner for its children, and adds their rows.
fn bring_in<C: Children>(
    alloc: Global,
    listing: Listing,
    winner: u32,
    children: &mut C,
) -> Result<Listing, RowsError<C::Fault>>
    requires within { winner < vec_len listing.rows }
    requires few { vec_len listing.rows ≤ most_rows }
    requires stands { C.stands children.old }
    ensures ok { IfOk result (λ longer. BringsIn C.children_of (C.meaning children.old) winner
        listing.rows.items longer.rows.items listing.winners.items longer.winners.items) }
    ensures err { IfErr result (λ error. IfSome (C.meaning children.old) (λ known.
        Hinders C.blame (C.children_of known) listing.rows.items winner error)) }
    ensures meaning { C.meaning children.new ≡ C.meaning children.old }
    ensures made_over { C.made_over children.new ≡ C.made_over children.old }
    ensures stands { C.stands children.new }
    ensures cause { Counted (C.faults children.old) (C.faults children.new)
        (fails (rows_blame C.blame) result) }
    ensures asks { IfOk result (λ longer.
        AsksOne (length listing.rows.items) (length longer.rows.items) (C.tally children.old)
        (C.tally children.new)) }
    ensures past { IfErr result (EndsWith (length listing.rows.items) (C.tally children.old)
        (C.tally children.new)) }
{
    let row = &listing.rows[winner as usize];
    let decls = match children.children(alloc, &row.app, &row.decl) {
        Ok(decls) => decls,
        Err(fault) => return Err(RowsError::Children(fault)),
    };
    if decls.len() > MOST_ROWS - listing.rows.len() {
        return Err(RowsError::TooManyRows);
    }
    Ok(listing.with_all(Some(winner), decls)?)
}
