// All divergences of rows.
ghost use Rattle.std.specs.Prelude.{◌≡◌, ◌↔◌, ℕ, ◌+◌, ◌<◌, length, Some, IfOk, OnOk};
ghost use Rattle.std.specs.List.{AllPairs};
ghost use Rattle.std.specs.Option.{option_copied};
ghost use Rattle.semver.specs.declared.Version.{Version};
ghost use Rattle.converger.specs.Divergence.{Diverges, AreDivergences, HasVersion, parts_in};
ghost use Rattle.converger.specs.Cases.{AreBefore, IsScene, IsUnderAt, Meets, turn_of};

use crate::cases::Case;
use crate::divergence::{Divergence, Divergences, Rule};
use dep_rows::Rows;
use semver::Version;
use std::alloc::{AllocError, Global};

/// Rows, the versions of their winners, and which rows are strays.
#[derive(Drop)]
pub(crate) struct Scene<'a> {
    pub(crate) rows: &'a Rows,
    pub(crate) versions: &'a [Option<Version>],
    pub(crate) strays: &'a [bool],
}

impl Scene<'_> {
    /// All divergences, by row and then by rule.
    pub(crate) fn divergences(&self, alloc: Global) -> Result<Divergences, AllocError>
        requires { IsScene self.now.rows.now self.now.versions.now self.now.strays.now }
        ensures { IfOk result (AreDivergences self.now.rows.now.rows self.now.rows.now.winners
            (parts_in self.now.versions.now)) }
    {
        let mut list = Divergences::new(alloc);
        for other in 0..self.rows.rows().len() {
            self.add(&mut list, Rule::V1, other)?;
            self.add(&mut list, Rule::V2, other)?;
            self.add(&mut list, Rule::V3, other)?;
            self.add(&mut list, Rule::V4, other)?;
        }
        Ok(list)
    }

    fn add(&self, list: &mut Divergences, rule: Rule, other: usize) -> Result<(), AllocError>
        requires scene { IsScene self.now.rows.now self.now.versions.now self.now.strays.now }
        requires other { other < length self.now.rows.now.rows }
        requires before { AreBefore self.now.rows.now (parts_in self.now.versions.now)
            (turn_of other rule) list.old }
        ensures { OnOk result (AreBefore self.now.rows.now (parts_in self.now.versions.now)
            (turn_of other rule + 1) list.new) }
    {
        if let Some(winner) = self.diverging(rule, other) {
            list.push(Divergence {
                rule,
                winner,
                other: other as u32,
            })?;
        }
        Ok(())
    }

    /// The winner that a row can't live together with by this rule.
    fn diverging(&self, rule: Rule, other: usize) -> Option<u32>
        requires scene { IsScene self.now.rows.now self.now.versions.now self.now.strays.now }
        requires other { other < length self.now.rows.now.rows }
        ensures { (place : ℕ) → (result ≡ Some place)
            ↔ Diverges self.now.rows.now.rows self.now.rows.now.winners
            (parts_in self.now.versions.now) rule place other }
    {
        let row = &self.rows.rows()[other];
        let place = self.rows.winner_of(&row.app)?;
        if self.case_at(place, other).meets(rule) {
            Some(place)
        } else {
            None
        }
    }

    /// A row beside the winner of its app.
    fn case_at(&self, place: u32, other: usize) -> Case<'_>
        requires scene { IsScene self.now.rows.now self.now.versions.now self.now.strays.now }
        requires under { IsUnderAt self.now.rows.now.rows place other }
        ensures { (rule : Rule) →
            Meets rule result.winner.now result.row.now result.is_winner
            (option_copied result.version) result.is_stray
            ↔ Diverges self.now.rows.now.rows self.now.rows.now.winners
            (parts_in self.now.versions.now) rule place other }
    {
        Case {
            winner: &self.rows.rows()[place as usize],
            row: &self.rows.rows()[other],
            is_winner: place as usize == other,
            version: version_of(self.rows.winners(), self.versions, place),
            is_stray: self.strays[other],
        }
    }
}

/// The version of the winner at a place.
fn version_of<'a>(
    winners: &[u32],
    versions: &'a [Option<Version>],
    place: u32,
) -> Option<&'a Version>
    requires sorted { AllPairs (λ earlier later. earlier < later) winners.now }
    requires long { length versions.now ≡ length winners.now }
    ensures { (version : Version) → (option_copied result ≡ Some version)
        ↔ HasVersion winners.now versions.now place (Some version) }
{
    match winners.binary_search(&place) {
        Ok(at) => versions[at].as_ref(),
        Err(_) => None,
    }
}
