// A row beside the winner of its app.
ghost use Rattle.std.specs.Prelude.{◌≡◌, ◌↔◌, IsTrue};
ghost use Rattle.std.specs.Option.{option_copied};
ghost use Rattle.converger.specs.Divergence.{is_ignored, is_path};
ghost use Rattle.converger.specs.Cases.{Meets, ComesFromElsewhere, IsCompiledOtherwise, AsksOtherwise};

use crate::divergence::Rule;
use dep_options::{CompileBy, DepSource};
use dep_rows::Row;
use semver::Version;

/// A row, the winner of its app and the version of that, and what is known of their places.
#[derive(Clone, Copy, Drop)]
pub(crate) struct Case<'a> {
    pub winner: &'a Row,
    pub row: &'a Row,
    pub is_winner: bool,
    pub version: Option<&'a Version>,
    pub is_stray: bool,
}

impl Case<'_> {
    /// Whether the rule meets.
    pub(crate) fn meets(&self, rule: Rule) -> bool
        ensures { IsTrue result ↔ Meets rule self.now.winner.now self.now.row.now self.now.is_winner
            (option_copied self.now.version) self.now.is_stray }
    {
        match rule {
            Rule::V1 => !self.is_winner && comes_from_elsewhere(self.winner, self.row),
            Rule::V2 => !self.is_winner && is_compiled_otherwise(self.winner, self.row),
            Rule::V3 => asks_otherwise(self.winner, self.row, self.version),
            Rule::V4 => self.is_stray,
        }
    }
}

fn is_ignored(winner: &Row, row: &Row) -> bool
    ensures { result ≡ is_ignored winner.now row.now }
{
    winner.by.is_none() && winner.decl.override_ && row.by.is_some()
}

fn comes_from_elsewhere(winner: &Row, row: &Row) -> bool
    ensures { IsTrue result ↔ ComesFromElsewhere winner.now row.now }
{
    !is_ignored(winner, row) && !is_same_source(&row.decl.source, &winner.decl.source)
}

fn is_compiled_otherwise(winner: &Row, row: &Row) -> bool
    ensures { IsTrue result ↔ IsCompiledOtherwise winner.now row.now }
{
    if is_ignored(winner, row) {
        return false;
    }
    row.decl.app_file != winner.decl.app_file
        || row.decl.env != winner.decl.env
        || !is_same_compiler(&row.decl.compile, &winner.decl.compile)
}

fn asks_otherwise(winner: &Row, row: &Row, version: Option<&Version>) -> bool
    ensures { IsTrue result ↔ AsksOtherwise winner.now row.now (option_copied version.entry) }
{
    if is_ignored(winner, row) {
        return false;
    }
    match (version, &row.decl.requirement) {
        (Some(version), Some(requirement)) => {
            !version_req::matches(requirement, version, is_path(&winner.decl.source))
        }
        _ => false,
    }
}

fn is_same_source(left: &DepSource, right: &DepSource) -> bool
    ensures { IsTrue result ↔ (left.now ≡ right.now) }
{
    left == right
}

fn is_same_compiler(left: &CompileBy, right: &CompileBy) -> bool
    ensures { IsTrue result ↔ (left.now ≡ right.now) }
{
    left == right
}

fn is_path(source: &DepSource) -> bool
    ensures { result ≡ is_path source.now }
{
    match source {
        DepSource::Hex { .. } => false,
        DepSource::Path { .. } => true,
    }
}
