// Folders that are the tool's own.
ghost use Rattle.std.specs.Prelude.{◌≡◌};
ghost use Rattle.mx_base.specs.Path.{first_segment};
ghost use Rattle.dep_options.specs.Options.{is_kept_apart, is_dep_folder};

use mx_base::RelPath;

/// Whether a path leads into `_build`, `deps` or `hex`, where no dependency lies and no source.
pub fn is_kept_apart(path: &RelPath) -> bool
    ensures { result ≡ is_kept_apart (first_segment path.now) }
{
    let text = path.as_str();
    let first = match text.split_once('/') {
        Some((first, _)) => first,
        None => text,
    };
    first == "_build" || first == "deps" || first == "hex"
}

/// Whether a dependency may lie in a folder: it isn't the root, and doesn't lie in the tool's own.
pub(crate) fn is_dep_folder(dir: &RelPath) -> bool
    ensures { result ≡ is_dep_folder dir.now }
{
    !dir.as_str().is_empty() && !is_kept_apart(dir)
}
