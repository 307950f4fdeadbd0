// Names, and builds that have one.
ghost use Rattle.std.specs.Prelude.{◌≡◌, ◌↔◌, ◌<◌, ◌≤◌, decimal, length, option_map, IfOk, IfSome, IfNone, IsTrue};
ghost use Rattle.mx_base.specs.AppName.{IsAppName};
ghost use Rattle.mx_base.specs.BuildName.{HasBuildName, begins_tagged};
ghost use Rattle.mix_words.specs.Live.{HasEnv, HasTarget};

use mx_base::{AppName, HOST, NameError};
use std::alloc::{AllocError, Global};

// A name that is as short as one can be, and can't be taken for a tagged one.
const SHORTEST: &str = "a";

/// The name that a text is, or none.
pub(crate) fn name_of(alloc: Global, text: &str) -> Result<Option<AppName>, AllocError>
    ensures some { IfOk result (λ made. IfSome made (λ name. (name ≡ text.now) × IsAppName name)) }
    ensures none { IfOk result (λ made. IfNone made (IsAppName text.now → ⊥)) }
{
    match AppName::of(alloc, text.as_bytes()) {
        Ok(name) => {
            // This call tells what holds of a name.
            let _ = name.as_str();
            Ok(Some(name))
        }
        Err(error) => match error {
            NameError::OutOfMemory => Err(AllocError),
            _ => Ok(None),
        },
    }
}

fn digits_in(number: usize) -> usize
    requires { number < 256 }
    ensures digits { result ≡ length (decimal number) }
    ensures few { result ≤ 3 }
{
    if number < 10 {
        1
    } else if number < 100 {
        2
    } else {
        3
    }
}

fn begins_tagged(name: &str) -> bool
    ensures { result ≡ begins_tagged name.now }
{
    match name.as_bytes() {
        [b't', digit, ..] => digit.is_ascii_digit(),
        _ => false,
    }
}

/// Whether an environment has the name of a build for a target, which is told without making it.
pub fn has_build_name(env: &str, target: &str) -> bool
    requires env { length env.now < 256 }
    requires target { length target.now < 256 }
    ensures { IsTrue result ↔ HasBuildName env.now target.now }
{
    if target == HOST && !begins_tagged(env) {
        true
    } else {
        3 + digits_in(target.len()) + target.len() + env.len() <= 255
    }
}

/// Whether some target has the name of a build in an environment: the one that is given, where one is.
pub(crate) fn has_target(env: &str, target: Option<&AppName>) -> bool
    requires { IsAppName env.now }
    ensures { IsTrue result ↔ HasTarget env.now (option_map (λ t. t.now) target.entry) }
{
    match target {
        Some(target) => has_build_name(env, target.as_str()),
        None => has_build_name(env, HOST) || has_build_name(env, SHORTEST),
    }
}

/// Whether some environment has the name of a build for a target: the one that is given, where one is.
pub(crate) fn has_env(env: Option<&AppName>, target: &str) -> bool
    requires { IsAppName target.now }
    ensures { IsTrue result ↔ HasEnv (option_map (λ e. e.now) env.entry) target.now }
{
    match env {
        Some(env) => has_build_name(env.as_str(), target),
        None => has_build_name(SHORTEST, target),
    }
}
