// Which build a folder is of.
ghost use Rattle.std.specs.Prelude.{◌≡◌, IfOk};

use mx_base::AppName;
use std::alloc::AllocError;

/// An environment and an app. Keys are ordered by environment, and then by app.
#[derive(Clone, PartialEq, Eq, PartialOrd, Ord, Drop)]
pub struct BuildKey {
    pub env: AppName,
    pub app: AppName,
}

impl BuildKey {
    /// The key of an app in an environment.
    pub fn of(env: &AppName, app: &AppName) -> Result<BuildKey, AllocError>
        ensures { IfOk result (λ key. key ≡ record { env = env.now; app = app.now }) }
    {
        Ok(BuildKey {
            env: env.clone()?,
            app: app.clone()?,
        })
    }
}
