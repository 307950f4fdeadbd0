// The rows of a project, and which of them win.
ghost use Rattle.std.specs.Prelude.{◌≡◌, ◌≤◌, length};
ghost use Rattle.dep_rows.specs.Listed.{Listed, IsWithinLimit};
ghost use Rattle.dep_rows.specs.Rows.{AreWellFormed, most_rows, winner_of};

use crate::listing::Listing;
use crate::row::{Places, Row, RowList};
use indexmap::IndexMap;
use mx_base::AppName;
use std::marker::Model;

/// The rows of a project, and the places of their winners. It has at most 65,536 rows.
#[derive(Drop)]
pub struct Rows {
    rows: RowList,
    winners: Places,
    by_app: IndexMap<AppName, u32>,
}

impl Model for Rows {
    ghost use Rattle.dep_rows.specs.Listed.{Listed, IsWithinLimit};
    ghost use Rattle.dep_rows.specs.Growing.{KnowsWinners};

    ghost Value = { Listed };

    ghost view = { λ list. record { rows = list.rows; winners = list.winners } };

    ghost invariant = { λ list.
        IsWithinLimit (record { rows = list.rows; winners = list.winners })
        × KnowsWinners list.by_app list.rows };
}

impl Rows {
    pub(crate) fn of(listing: Listing) -> Rows
        requires well_formed { AreWellFormed listing.rows.items listing.winners.items }
        requires few { length listing.rows.items ≤ most_rows }
        ensures value { result
            ≡ record { rows = listing.rows.items; winners = listing.winners.items } }
        ensures within { IsWithinLimit result }
    {
        let Listing {
            rows,
            winners,
            by_app,
        } = listing;
        Rows {
            rows: RowList::from_vec(rows),
            winners: Places::from_vec(winners),
            by_app,
        }
    }

    /// The rows in their order.
    pub fn rows(&self) -> &[Row]
        ensures rows { result.now ≡ self.now.rows }
        ensures within { IsWithinLimit self.now }
    {
        self.rows.as_slice()
    }

    /// The place of each app's winner, in order.
    pub fn winners(&self) -> &[u32]
        ensures winners { result.now ≡ self.now.winners }
        ensures within { IsWithinLimit self.now }
    {
        self.winners.as_slice()
    }

    /// The place of the winner of an app.
    pub fn winner_of(&self, app: &AppName) -> Option<u32>
        ensures { result ≡ winner_of self.now.rows app.now }
    {
        self.by_app.get(app).copied()
    }
}
