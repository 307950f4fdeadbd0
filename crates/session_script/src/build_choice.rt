// The build that an edit is about.
ghost use Rattle.std.specs.Prelude.{◌≡◌};
ghost use Rattle.mx_base.specs.BuildName.{HasBuildName};

use mx_base::AppName;
use std::marker::Model;

/// An environment and a target, which together have the name of a build.
#[derive(Drop)]
pub struct BuildChoice {
    env: AppName,
    target: AppName,
}

impl Model for BuildChoice {
    ghost use Rattle.mx_base.specs.BuildName.{HasBuildName};
    ghost use Rattle.session_script.specs.Chosen.{Chosen};

    ghost Value = { Chosen };

    ghost view = { λ choice. record { env = choice.env; target = choice.target } };

    ghost invariant = { λ choice. HasBuildName choice.env choice.target };
}

impl BuildChoice {
    /// The choice of both.
    pub fn new(env: AppName, target: AppName) -> BuildChoice
        requires { HasBuildName env target }
        ensures { result ≡ record { env = env; target = target } }
    {
        BuildChoice { env, target }
    }

    /// The environment.
    pub fn env(&self) -> &AppName
        ensures value { result.now ≡ self.now.env }
        ensures named { HasBuildName self.now.env self.now.target }
    {
        &self.env
    }

    /// The target, `host` where the element has none.
    pub fn target(&self) -> &AppName
        ensures value { result.now ≡ self.now.target }
        ensures named { HasBuildName self.now.env self.now.target }
    {
        &self.target
    }
}
