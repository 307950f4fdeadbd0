// Paths of the project's own files.
ghost use Rattle.std.specs.Prelude.{◌≡◌, IsFalse};
ghost use Rattle.mx_base.specs.Layout.{is_in_build};

use mx_base::RelPath;
use std::marker::Model;

/// A path that doesn't lead into the folder of builds, so that a store may be asked for it.
#[derive(Drop)]
pub struct SourcePath {
    path: RelPath,
}

impl Model for SourcePath {
    ghost use Rattle.std.specs.Prelude.{List, ℕ, IsFalse};
    ghost use Rattle.mx_base.specs.Layout.{is_in_build};

    ghost Value = { List ℕ };

    ghost view = { λ source. source.path };

    ghost invariant = { λ source. IsFalse (is_in_build source.path) };
}

impl SourcePath {
    /// The path, which doesn't lead into the folder of builds.
    pub fn new(path: RelPath) -> SourcePath
        requires { IsFalse (is_in_build path) }
        ensures { result ≡ path }
    {
        SourcePath { path }
    }

    /// The path.
    pub fn as_path(&self) -> &RelPath
        ensures value { result.now ≡ self.now }
        ensures outside { IsFalse (is_in_build self.now) }
    {
        &self.path
    }
}
