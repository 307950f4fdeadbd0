// Which versions a requirement takes.
ghost use Rattle.std.specs.Prelude.{◌≡◌};
ghost use Rattle.std.specs.List.{list_all};
ghost use Rattle.semver.specs.Eval.{precedence_cmp};
ghost use Rattle.semver.specs.Identifiers.{parts_of};
ghost use Rattle.version_req.specs.Meaning.{bars, holds, leads_alike, sat, stands, takes_later};

use crate::operator::Operator;
use crate::requirement::{Comparison, Requirement};
use mx_base::ListOf;
use semver::Version;
use std::cmp::Ordering;

/// The order of two versions by precedence (SemVer 2.0.0, section 11), which passes over build metadata.
pub fn compare(left: &Version, right: &Version) -> Ordering
    ensures { result ≡ precedence_cmp left.now right.now }
{
    left.cmp_precedence(right)
}

/// Whether the requirement takes the version: it meets all comparisons of some alternative. Without
/// `allow_pre` a comparison by `>`, `>=` or `~>` refuses a pre-release, unless its own operand is one; the
/// other operators take pre-releases by precedence alone.
pub fn matches(requirement: &Requirement, version: &Version, allow_pre: bool) -> bool
    ensures { result ≡ sat requirement.now (parts_of version.now) allow_pre }
{
    requirement
        .alternatives
        .as_slice()
        .iter()
        .any(|all| holds_all(all, version, allow_pre))
}

fn holds_all(all: &ListOf<Comparison>, version: &Version, allow_pre: bool) -> bool
    ensures { result ≡ list_all (holds (parts_of version.now) allow_pre) all.now }
{
    all.as_slice()
        .iter()
        .all(|comparison| holds(comparison, version, allow_pre))
}

fn holds(comparison: &Comparison, version: &Version, allow_pre: bool) -> bool
    ensures { result ≡ holds (parts_of version.now) allow_pre comparison.now }
{
    stands(comparison, version) && (allow_pre || !bars(comparison, version))
}

fn stands(comparison: &Comparison, version: &Version) -> bool
    ensures { result ≡ stands comparison.now.operator comparison.now (parts_of version.now) }
{
    let ordering = compare(version, &comparison.version);
    match comparison.operator {
        Operator::Equal => ordering.is_eq(),
        Operator::NotEqual => ordering.is_ne(),
        Operator::Greater => ordering.is_gt(),
        Operator::GreaterOrEqual => ordering.is_ge(),
        Operator::Less => ordering.is_lt(),
        Operator::LessOrEqual => ordering.is_le(),
        Operator::Compatible => ordering.is_ge() && leads_alike(comparison, version),
    }
}

// Whether the version begins with the numbers that `~>` holds fast.
fn leads_alike(comparison: &Comparison, version: &Version) -> bool
    ensures { result ≡ leads_alike comparison.now (parts_of version.now) }
{
    let least = &comparison.version;
    version.major == least.major && (!comparison.patch_written || version.minor == least.minor)
}

// Whether the version is a pre-release that the comparison refuses where none are allowed.
fn bars(comparison: &Comparison, version: &Version) -> bool
    ensures { result ≡ bars comparison.now (parts_of version.now) }
{
    takes_later(comparison.operator) && !version.pre.is_empty() && comparison.version.pre.is_empty()
}

fn takes_later(operator: Operator) -> bool
    ensures { result ≡ takes_later operator }
{
    matches!(
        operator,
        Operator::Greater | Operator::GreaterOrEqual | Operator::Compatible
    )
}
