// Rows so far, and the winners among them.
ghost use Rattle.std.specs.Prelude.{◌≡◌, ◌+◌, ◌<◌, ◌≤◌, [], ◌∷◌, ◌++◌, length, vec_len, OnOk, IfOk};
ghost use Rattle.dep_rows.specs.Growing.{next_winner, next_winners, KnowsWinners};
ghost use Rattle.dep_rows.specs.Rows.{most_rows, row_of, rows_from};

use crate::row::Row;
use dep_options::Decl;
use indexmap::IndexMap;
use mx_base::AppName;
use std::alloc::{AllocError, Global};

/// How many rows there may be.
pub(crate) const MOST_ROWS: usize = 65_536;

/// Rows so far, the places of their winners, and which of these is each app's.
#[derive(Drop)]
pub(crate) struct Listing {
    pub(crate) rows: Vec<Row>,
    pub(crate) winners: Vec<u32>,
    pub(crate) by_app: IndexMap<AppName, u32>,
    ghost knows: { KnowsWinners by_app rows.items },
}

impl Listing {
    pub(crate) fn new(alloc: Global) -> Listing
        ensures rows { result.rows.items ≡ [] }
        ensures winners { result.winners.items ≡ [] }
    {
        let rows = Vec::new(alloc);
        let winners = Vec::new(alloc);
        let by_app = IndexMap::new(alloc);
        Listing {
            rows,
            winners,
            by_app,
        }
    }

    /// With the declarations of one manifest, that of the root where no row declares them.
    pub(crate) fn with_all(self, by: Option<u32>, decls: Vec<Decl>) -> Result<Listing, AllocError>
        requires { vec_len self.rows + vec_len decls ≤ most_rows }
        ensures rows { IfOk result (λ listing. listing.rows.items
            ≡ self.rows.items ++ rows_from by 0 decls.items) }
        ensures winners { IfOk result (λ listing.
            listing.winners.items ≡ self.winners.items ++ next_winners self.rows.items
            (rows_from by 0 decls.items)) }
    {
        let mut listing = self;
        let mut index = 0;
        for decl in decls {
            listing = listing.with(row_of(by, index, decl)?)?;
            index += 1;
        }
        Ok(listing)
    }

    fn with(self, row: Row) -> Result<Listing, AllocError>
        requires { vec_len self.rows < most_rows }
        ensures rows { IfOk result (λ listing. listing.rows.items ≡ self.rows.items ++ row ∷ []) }
        ensures winners { IfOk result (λ listing.
            listing.winners.items ≡ self.winners.items ++ next_winner self.rows.items row) }
    {
        let Listing {
            mut rows,
            mut winners,
            mut by_app,
        } = self;
        note(&rows, &row, &mut winners, &mut by_app)?;
        rows.push(row)?;
        Ok(Listing {
            rows,
            winners,
            by_app,
        })
    }
}

/// Notes the row that comes after these, if it wins.
fn note(
    rows: &Vec<Row>,
    row: &Row,
    winners: &mut Vec<u32>,
    by_app: &mut IndexMap<AppName, u32>,
) -> Result<(), AllocError>
    requires few { vec_len rows.now < most_rows }
    requires knows { KnowsWinners by_app.old rows.now.items }
    ensures winners { OnOk result (winners.new.items
        ≡ winners.old.items ++ next_winner rows.now.items row.now) }
    ensures knows { OnOk result (KnowsWinners by_app.new (rows.now.items ++ row.now ∷ [])) }
{
    if !row.required {
        return Ok(());
    }
    if by_app.contains_key(&row.app) {
        return Ok(());
    }
    let place = rows.len() as u32;
    by_app.insert(row.app.clone()?, place)?;
    winners.push(place)?;
    Ok(())
}

fn row_of(by: Option<u32>, index: u32, decl: Decl) -> Result<Row, AllocError>
    ensures { IfOk result (λ row. row ≡ row_of by index decl) }
{
    Ok(Row {
        app: decl.app.clone()?,
        by,
        index,
        required: !decl.optional || by.is_none(),
        decl,
    })
}
