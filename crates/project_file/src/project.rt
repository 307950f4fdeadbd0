// What a manifest says.
ghost use Rattle.std.specs.Prelude.{IsTrue};
ghost use Rattle.version_req.specs.Version.{is_version};

use dep_options::Decl;
use mx_base::{AppName, ListOf, Text};

/// Declarations in their order.
pub type Decls = ListOf<Decl>;

/// What the manifest `project.exs` of a folder says.
#[derive(Drop)]
pub struct Project {
    pub app: AppName,
    /// A version of Semantic Versioning 2.0.0, as it was written.
    pub version: Text,
    pub ghost versioned: { IsTrue (is_version version) },
    pub decls: Decls,
}
