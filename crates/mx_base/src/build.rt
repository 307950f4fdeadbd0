// The names of builds.
ghost use Rattle.std.specs.Prelude.{◌≡◌, ◌≤◌, List, ℕ, length, IfOk, string_bytes};
ghost use Rattle.mx_base.specs.Blame.{Computes};
ghost use Rattle.mx_base.specs.NameFaults.{blame_of};
ghost use Rattle.mx_base.specs.AppName.{IsAppName};
ghost use Rattle.mx_base.specs.BuildName.{HasBuildName, begins_tagged, build_name, is_plain, tagged, unless_too_long};

use crate::name::{AppName, NameError};
use std::alloc::{AllocError, Global};

/// The target of what is compiled for the machine at hand.
pub const HOST: &str = "host";

/// The name under which what an environment has for a target is built: `ENV` for `host`, unless it begins with `t`
/// and a digit, and else `tN_TARGET_ENV`, where N is the length of the target in decimal.
///
/// # Errors
///
/// `TooLong` where that has more than 255 bytes, and no other refusal.
pub fn build_name(alloc: Global, env: &AppName, target: &AppName) -> Result<AppName, NameError>
    ensures ok { IfOk result (λ name. name ≡ build_name env.now target.now) }
    ensures fits { IfOk result (λ _. HasBuildName env.now target.now) }
    ensures answer { Computes blame_of result (λ answer.
        answer ≡ unless_too_long (build_name env.now target.now)) }
{
    if is_plain(env, target) {
        plain(env)
    } else {
        named(alloc, env, target)
    }
}

// The environment's name serves.
fn is_plain(env: &AppName, target: &AppName) -> bool
    ensures { result ≡ is_plain env.now target.now }
{
    target.as_str() == HOST && !begins_tagged(env.as_str())
}

fn begins_tagged(name: &str) -> bool
    ensures { result ≡ begins_tagged name.now }
{
    match name.as_bytes() {
        [b't', digit, ..] => digit.is_ascii_digit(),
        _ => false,
    }
}

#[tactic(auto, using(crate::proofs::BuildNameLemmas::short_name))]
fn plain(env: &AppName) -> Result<AppName, NameError>
    ensures ok { IfOk result (λ name. name ≡ env.now) }
    ensures fits { IfOk result (λ _. length env.now ≤ 255) }
    ensures answer { Computes blame_of result (λ answer. answer ≡ unless_too_long env.now) }
{
    // This call tells what holds of a name.
    let _ = env.as_str();
    Ok(env.clone()?)
}

fn named(alloc: Global, env: &AppName, target: &AppName) -> Result<AppName, NameError>
    ensures ok { IfOk result (λ name. name ≡ tagged env.now target.now) }
    ensures fits { IfOk result (λ _. length (tagged env.now target.now) ≤ 255) }
    ensures answer { Computes blame_of result (λ answer.
        answer ≡ unless_too_long (tagged env.now target.now)) }
{
    let text = tagged(alloc, env.as_str(), target.as_str())?;
    AppName::of(alloc, text.as_bytes())
}

fn tagged(alloc: Global, env: &str, target: &str) -> Result<String, AllocError>
    ensures { IfOk result (λ text. string_bytes text ≡ tagged env.now target.now) }
{
    let mut text = format!(in alloc; "t{}_", target.len())?;
    text.push_str(target)?;
    text.push('_')?;
    text.push_str(env)?;
    Ok(text)
}

/// Builds of different environments or for different targets have different names.
#[tactic(auto, using(crate::proofs::BuildNameLemmas::one_build))]
pub fn different_builds()
    ensures { (env target other_env other_target : List ℕ) →
        IsAppName env → IsAppName target → IsAppName other_env → IsAppName other_target →
        build_name env target ≡ build_name other_env other_target →
        (env ≡ other_env) × (target ≡ other_target) }
{}
