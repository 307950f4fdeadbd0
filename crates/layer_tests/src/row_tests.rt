// Rows through the bound on what knows children.

use dep_options::Decl;
use dep_rows::{Children, ListAnswers, ListChildren, RowsError, one_list, one_outcome, rows};
use mx_base::NoFaults;
use std::alloc::Global;
use std::test::Fail;

fn count<C: Children>(
    alloc: Global,
    root: &[Decl],
    children: &mut C,
) -> Result<usize, RowsError<C::Fault>>
    requires { C.stands children.old }
{
    let found = rows(alloc, root, children)?;
    Ok(found.rows().len())
}

#[test]
fn a_root_has_one_outcome(rt: HostRuntime) -> Result<(), Fail> {
    one_list::<ListChildren<NoFaults>>();
    one_outcome::<ListChildren<NoFaults>>();
    let alloc = rt.alloc();
    let mut children = ListChildren::new(ListAnswers::new(alloc), NoFaults);
    assert!(rt; matches!(count(alloc, &[], &mut children), Ok(0)));
    Ok(())
}
