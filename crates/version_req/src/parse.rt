// Reading a requirement: comparison by comparison, each made as soon as it is scanned.
ghost use Rattle.std.specs.Prelude.{◌≡◌, IfOk, IfErr, OnOk, Ok, true};
ghost use Rattle.semver.specs.Grammar.{is_build, is_pre_release};
ghost use Rattle.semver.specs.Identifiers.{build_text, pre_text};
ghost use Rattle.version_req.specs.Machine.{Lead, empty, joined, run};
ghost use Rattle.version_req.specs.Reading.{scanned_view};
ghost use Rattle.version_req.specs.Stops.{StopsAs};

use crate::requirement::Comparison;
use crate::scan;
use crate::scanned::{Joint, Scanned, read_comparison, read_joint};
use mx_base::ListOf;
use semver::{BuildMetadata, Prerelease, Version};
use std::alloc::{AllocError, Global};
use std::mem;

/// Why reading ends early.
#[derive(Clone, Copy)]
pub(crate) enum Fault {
    Stuck(scan::Stuck),
    OutOfMemory,
}

impl From<scan::Stuck> for Fault {
    ghost use Rattle.version_req.specs.declared.parse.Fault.TheVariants.{Stuck};

    ghost from_gives = { λ at fault. fault ≡ Stuck at };

    fn from(at: scan::Stuck) -> Fault {
        Fault::Stuck(at)
    }
}

impl From<AllocError> for Fault {
    ghost use Rattle.version_req.specs.declared.parse.Fault.TheVariants.{OutOfMemory};

    ghost from_gives = { λ _ fault. fault ≡ OutOfMemory };

    fn from(_error: AllocError) -> Fault {
        Fault::OutOfMemory
    }
}

fn pre_release(alloc: Global, text: &[u8]) -> Result<Prerelease, AllocError>
    requires { is_pre_release text.now ≡ true }
    ensures { IfOk result (λ pre. pre_text pre ≡ text.now) }
{
    match str::from_utf8(text) {
        // The text is a pre-release, so memory alone can be wanting.
        Ok(text) => Prerelease::new(alloc, text).map_err(|_| AllocError),
        Err(_) => unreachable!(),
    }
}

fn build_metadata(alloc: Global, text: &[u8]) -> Result<BuildMetadata, AllocError>
    requires { is_build text.now ≡ true }
    ensures { IfOk result (λ build. build_text build ≡ text.now) }
{
    match str::from_utf8(text) {
        // The text is build metadata, so memory alone can be wanting.
        Ok(text) => BuildMetadata::new(alloc, text).map_err(|_| AllocError),
        Err(_) => unreachable!(),
    }
}

// The comparison that was scanned, with copies of its texts.
fn owned(alloc: Global, scanned: &Scanned<'_>) -> Result<Comparison, AllocError>
    requires pre { is_pre_release scanned.now.pre.now ≡ true }
    requires build { is_build scanned.now.build.now ≡ true }
    ensures { IfOk result (λ comparison. comparison ≡ scanned_view scanned.now) }
{
    let head = scanned.head;
    Ok(Comparison {
        operator: head.operator,
        version: Version {
            major: head.major,
            minor: head.minor,
            patch: head.patch,
            pre: pre_release(alloc, scanned.pre)?,
            build: build_metadata(alloc, scanned.build)?,
        },
        patch_written: head.patch_written,
    })
}

// Past a word: `or` ends the alternative in hand.
fn enter(
    alloc: Global,
    joint: Joint,
    done: &mut ListOf<ListOf<Comparison>>,
    group: &mut ListOf<Comparison>,
) -> Result<(), AllocError>
    ensures { OnOk result (record { done = done.new; group = group.new }
        ≡ joined joint (record { done = done.old; group = group.old })) }
{
    match joint {
        Joint::And => Ok(()),
        Joint::Or => done.push(mem::replace(group, ListOf::new(alloc))),
    }
}

/// The alternatives that the whole text spells.
pub(crate) fn alternatives(alloc: Global, text: &[u8]) -> Result<ListOf<ListOf<Comparison>>, Fault>
    ensures ok { IfOk result (λ alternatives. run text.now Lead empty ≡ Ok alternatives) }
    ensures err { IfErr result (StopsAs (run text.now Lead empty)) }
{
    let mut done = ListOf::new(alloc);
    let mut group = ListOf::new(alloc);
    let mut rest = text;
    'comparisons: loop {
        let (scanned, after) = read_comparison(rest)?;
        group.push(owned(alloc, &scanned)?)?;
        let (joint, next) = read_joint(after)?;
        let Some(joint) = joint else {
            done.push(group)?;
            return Ok(done);
        };
        enter(alloc, joint, &mut done, &mut group)?;
        rest = next;
    }
}
