// The options of a declaration, as a table by name.
ghost use Rattle.std.specs.Prelude.{◌≡◌, map};
ghost use Rattle.dep_options.specs.Options.{first_of, kind_of};

/// What an option takes.
#[derive(Clone, Copy, Drop)]
pub(crate) enum Kind {
    /// One name or a list of names, of environments or of targets.
    NameList,
    Environment,
    Truth,
    /// How the dependency is compiled.
    Compiling,
    /// Where it lies.
    Folder,
    /// What it is named in the registry.
    Package,
    /// The name of the registry, of which there is one.
    Registry,
    Managing,
    VariableList,
    /// It asks for a source that isn't supported.
    Unsupported,
}

const OPTIONS: [(&str, Kind); 17] = [
    ("only", Kind::NameList),
    ("targets", Kind::NameList),
    ("env", Kind::Environment),
    ("optional", Kind::Truth),
    ("override", Kind::Truth),
    ("runtime", Kind::Truth),
    ("app", Kind::Truth),
    ("compile", Kind::Compiling),
    ("path", Kind::Folder),
    ("hex", Kind::Package),
    ("repo", Kind::Registry),
    ("manager", Kind::Managing),
    ("system_env", Kind::VariableList),
    ("git", Kind::Unsupported),
    ("github", Kind::Unsupported),
    ("organization", Kind::Unsupported),
    ("in_umbrella", Kind::Unsupported),
];

/// What the option of this name takes, where there is one.
pub(crate) fn kind_of(name: &[u8]) -> Option<Kind>
    ensures { result ≡ kind_of name.now }
{
    kind_in(&OPTIONS, name)
}

fn kind_in(options: &[(&str, Kind)], name: &[u8]) -> Option<Kind>
    ensures { result ≡ first_of name.now (map (λ o. (o.0.now, o.1)) options.now) }
{
    for (option, kind) in options {
        if name == option.as_bytes() {
            return Some(*kind);
        }
    }
    None
}
