// What is said of divergences.
ghost use Rattle.std.specs.Prelude.{◌≡◌, ◌<◌, length, IfOk};
ghost use Rattle.std.specs.List.{All};
ghost use Rattle.build_plan.specs.Lines.{declarer, AreLines, IsLine};
ghost use Rattle.build_plan.specs.Needs.{app_of};

use crate::error::{DivergedLine, DivergedLines};
use converger::Divergence;
use dep_rows::Row;
use mx_base::AppName;
use std::alloc::{AllocError, Global};

/// Where the two declarations of each divergence stand.
pub(crate) fn lines(
    alloc: Global,
    rows: &[Row],
    divergences: &[Divergence],
) -> Result<DivergedLines, AllocError>
    requires { All (λ d. (d.winner < length rows.now) × (d.other < length rows.now))
        divergences.now }
    ensures { IfOk result (λ lines. AreLines rows.now divergences.now lines) }
{
    let mut lines = DivergedLines::new(alloc);
    for divergence in divergences {
        lines.push(line(rows, *divergence)?)?;
    }
    Ok(lines)
}

fn line(rows: &[Row], divergence: Divergence) -> Result<DivergedLine, AllocError>
    requires { (divergence.winner < length rows.now) × (divergence.other < length rows.now) }
    ensures { IfOk result (IsLine rows.now divergence) }
{
    let winner = &rows[divergence.winner as usize];
    let other = &rows[divergence.other as usize];
    Ok(DivergedLine {
        rule: divergence.rule,
        app: winner.app.clone()?,
        winner_by: declarer(rows, winner)?,
        winner_index: winner.index,
        other_by: declarer(rows, other)?,
        other_index: other.index,
    })
}

/// The app that declares a row, none where the root does.
fn declarer(rows: &[Row], row: &Row) -> Result<Option<AppName>, AllocError>
    ensures { IfOk result (λ app. app ≡ declarer rows.now row.now) }
{
    match row.by {
        Some(by) => app_of(rows, by),
        None => Ok(None),
    }
}

fn app_of(rows: &[Row], place: u32) -> Result<Option<AppName>, AllocError>
    ensures { IfOk result (λ app. app ≡ app_of rows.now place) }
{
    match rows.get(place as usize) {
        Some(row) => Ok(Some(row.app.clone()?)),
        None => Ok(None),
    }
}
