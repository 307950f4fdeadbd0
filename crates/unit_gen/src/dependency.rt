// The dependencies of a generated project.
ghost use Rattle.std.specs.Prelude.{◌≡◌, ◌+◌, ◌^◌, ◌<◌, ◌≤◌, All, IfOk, OnOk, length, map};
ghost use Rattle.unit_gen.specs.Seen.{seen};
ghost use Rattle.unit_gen.specs.Dependency.{asked, begins, dependencies, drawn, firsts, need_of};
ghost use Rattle.unit_gen.specs.Stream.{draws, number_at};

use crate::stream::Stream;
use std::alloc::{AllocError, Global};

/// A dependency: its number, those of its direct needs, and the value that it has of its own.
#[derive(Drop)]
pub(crate) struct Dependency {
    pub(crate) number: u32,
    pub(crate) needs: Vec<u32>,
    pub(crate) value: u32,
}

/// The dependencies of a project, in the order of their numbers.
pub(crate) fn draw_all(alloc: Global, count: u32, start: u32) -> Result<Vec<Dependency>, AllocError>
    requires few { count ≤ 4000 }
    requires within { start < 2 ^ 31 }
    ensures all { IfOk result (λ all. map seen all.items ≡ dependencies start count) }
    ensures count { IfOk result (λ all. length all.items ≡ count) }
    ensures few { IfOk result (λ all. All (λ one. length one.needs.items ≤ 3) all.items) }
{
    let mut stream = Stream::new(start);
    let mut all = Vec::with_capacity(alloc, count as usize)?;
    for before in 0..count {
        all.push(draw(alloc, &mut stream, before + 1)?)?;
    }
    Ok(all)
}

// The dependency of a number.
fn draw(alloc: Global, stream: &mut Stream, number: u32) -> Result<Dependency, AllocError>
    requires { 1 ≤ number }
    ensures drawn { IfOk result (λ one. seen one ≡ drawn stream.old number) }
    ensures few { IfOk result (λ one. length one.needs.items ≤ 3) }
    ensures on { OnOk result (stream.new ≡ number_at stream.old (asked stream.old number + 2)) }
{
    let asked = (number - 1).min(stream.draw() % 4);
    let needs = draw_needs(alloc, stream, number, asked)?;
    let value = stream.draw() % 1000;
    Ok(Dependency {
        number,
        needs,
        value,
    })
}

// So many needs of the dependency of a number, without those that are drawn again.
fn draw_needs(
    alloc: Global,
    stream: &mut Stream,
    number: u32,
    asked: u32,
) -> Result<Vec<u32>, AllocError>
    requires { asked < number }
    ensures needs { IfOk result (λ needs. needs.items
        ≡ firsts (map (need_of number) (draws stream.old 0 asked))) }
    ensures few { IfOk result (λ needs. length needs.items ≤ asked) }
    ensures on { OnOk result (stream.new ≡ number_at stream.old asked) }
{
    let mut needs = Vec::new(alloc);
    for place in 0..asked {
        let need = 1 + stream.draw() % (number - 1);
        if !needs.contains(&need) {
            needs.push(need)?;
        }
    }
    Ok(needs)
}
