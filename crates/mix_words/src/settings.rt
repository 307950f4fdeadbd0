// The options that were given.
ghost use Rattle.std.specs.Prelude.{◌≡◌, IfOk, IfErr, MatchResult, false, unwrap_or};
ghost use Rattle.mx_base.specs.AppName.{IsAppName};
ghost use Rattle.mx_base.specs.BuildName.{HasBuildName, host};
ghost use Rattle.mix_words.specs.Choice.{dev};
ghost use Rattle.mix_words.specs.Live.{raise};
ghost use Rattle.mix_words.specs.declared.error.Stop.TheVariants as stops;

use crate::build_choice::BuildChoice;
use crate::error::Stop;
use crate::named::{has_build_name, name_of};
use crate::option::Flag;
use mx_base::{AppName, HOST};
use std::alloc::Global;

// The environment, where none is given.
const DEV: &str = "dev";

/// What the options say: each is given once or not.
#[derive(Drop)]
pub(crate) struct Settings {
    pub(crate) env: Option<AppName>,
    pub(crate) target: Option<AppName>,
    pub(crate) partitions: Option<u32>,
    pub(crate) plain: bool,
    pub(crate) trace: bool,
}

impl Settings {
    /// Nothing is given.
    pub(crate) fn none() -> Settings
        ensures { result ≡ record { env = None; target = None; partitions = None; plain = false; trace = false } }
    {
        Settings {
            env: None,
            target: None,
            partitions: None,
            plain: false,
            trace: false,
        }
    }

    /// With a flag.
    pub(crate) fn raised(self, flag: Flag) -> Settings
        ensures { result ≡ raise self flag }
    {
        match flag {
            Flag::Plain => Settings {
                plain: true,
                ..self
            },
            Flag::Trace => Settings {
                trace: true,
                ..self
            },
        }
    }
}

/// The environment and the target, where they have the name of a build.
#[tactic(auto, using(crate::proofs::ChoiceLemmas::dev_name, crate::proofs::ChoiceLemmas::host_name))]
pub(crate) fn choice(
    alloc: Global,
    env: Option<AppName>,
    target: Option<AppName>,
) -> Result<BuildChoice, Stop>
    ensures { MatchResult result
        (λ choice. (choice ≡ record { env = unwrap_or env dev; target = unwrap_or target host })
        × HasBuildName (unwrap_or env dev) (unwrap_or target host))
        (λ stop. stop ≡ stops.Refused → HasBuildName (unwrap_or env dev) (unwrap_or target host) → ⊥) }
{
    let env = or_named(alloc, env, DEV)?;
    let target = or_named(alloc, target, HOST)?;
    if has_build_name(env.as_str(), target.as_str()) {
        Ok(BuildChoice::new(env, target))
    } else {
        Err(Stop::Refused)
    }
}

// The name that is given, or else the one that a text is.
fn or_named(alloc: Global, name: Option<AppName>, text: &str) -> Result<AppName, Stop>
    requires { IsAppName text.now }
    ensures ok { IfOk result (λ found. found ≡ unwrap_or name text.now) }
    ensures err { IfErr result (λ stop. stop ≡ stops.OutOfMemory) }
{
    match name {
        Some(name) => Ok(name),
        None => match name_of(alloc, text)? {
            Some(name) => Ok(name),
            None => unreachable!(),
        },
    }
}
