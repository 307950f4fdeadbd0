// Where things lie in the folder of a project.
ghost use Rattle.std.specs.Prelude.{◌≡◌};
ghost use Rattle.mx_base.specs.Layout.{is_in_build, is_kept_apart};
ghost use Rattle.mx_base.specs.Path.{first_segment};

use crate::path::RelPath;

/// The manifest of a project or a dependency, in its folder.
pub const MANIFEST: &str = "project.exs";

/// The settings, in the root.
pub const SETTINGS: &str = "settings.exs";

/// The lock, in the root.
pub const LOCK: &str = "mix.lock";

/// The folder of builds.
pub const BUILD: &str = "_build";

/// The folder of fetched dependencies.
pub const DEPS: &str = "deps";

/// The folder of the registry.
pub const REGISTRY: &str = "hex";

impl RelPath {
    /// What stands before the first slash; the whole where there is none.
    pub fn first_segment(&self) -> &str
        ensures { result.now ≡ first_segment self.now }
    {
        let text = self.as_str();
        match text.split_once('/') {
            Some((first, _)) => first,
            None => text,
        }
    }

    /// Whether the path leads into the folder of builds, so that a store isn't asked for it.
    pub fn is_in_build(&self) -> bool
        ensures { result ≡ is_in_build self.now }
    {
        self.first_segment() == BUILD
    }

    /// Whether the path leads into a folder of the tool's own, where no dependency lies and no source.
    pub fn is_kept_apart(&self) -> bool
        ensures { result ≡ is_kept_apart self.now }
    {
        let first = self.first_segment();
        first == BUILD || first == DEPS || first == REGISTRY
    }
}
