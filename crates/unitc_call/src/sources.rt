// The source files of a task.
ghost use Rattle.std.specs.Prelude.{◌≡◌, ◌++◌, [], IfOk, IfSome, IsFalse, OnOk};
ghost use Rattle.std.specs.List.{cons_option};
ghost use Rattle.mx_base.specs.Blame.{fails};
ghost use Rattle.mx_base.specs.Layout.{is_in_build};
ghost use Rattle.mx_base.specs.Path.{child_of};
ghost use Rattle.tree_store.specs.Blame.{blame_of};
ghost use Rattle.tree_store.specs.Known.{OnlyReads};
ghost use Rattle.build_plan.specs.Sources.{is_source, source_at, sources_of};

use mx_base::{File, Files, LOCK, RelPath};
use std::alloc::{AllocError, Global};
use tree_store::{Store, StoreFault};

/// The sources in a folder, with their paths from there. A file that has gone since its path was listed is none.
pub(crate) fn read_sources<S: Store>(
    alloc: Global,
    store: &mut S,
    dir: &RelPath,
) -> Result<Files, StoreFault>
    requires { IsFalse (is_in_build dir.now) }
    ensures read { IfOk result (λ sources. IfSome (S.known store.old).sources
        (λ files. sources ≡ sources_of dir.now files)) }
    ensures reads { OnlyReads (S.known store.old) (S.known store.new) (fails blame_of result) }
{
    let paths = store.list(alloc, dir)?;
    let mut sources = Vec::new(alloc);
    for path in &paths {
        let source = source(alloc, store, dir, path)?;
        push_found(&mut sources, source)?;
    }
    Ok(Files::from_vec(sources))
}

fn push_found(sources: &mut Vec<File>, source: Option<File>) -> Result<(), AllocError>
    ensures { OnOk result (sources.new.items ≡ sources.old.items ++ cons_option source []) }
{
    match source {
        Some(file) => Ok(sources.push(file)?),
        None => Ok(()),
    }
}

// The file at a path, as a source of the folder.
#[tactic(auto, using(build_plan::proofs::SourceLemmas::place_of))]
fn source<S: Store>(
    alloc: Global,
    store: &mut S,
    dir: &RelPath,
    path: &RelPath,
) -> Result<Option<File>, StoreFault>
    requires { IsFalse (is_in_build path.now) }
    ensures source { IfOk result (λ source. IfSome (S.known store.old).sources
        (λ files. source ≡ source_at dir.now files path.now)) }
    ensures place { IfOk result (λ source. IfSome source
        (λ file. path.now ≡ child_of dir.now file.path)) }
    ensures reads { OnlyReads (S.known store.old) (S.known store.new) (fails blame_of result) }
{
    let Some(rest) = path.from_folder(alloc, dir)? else {
        return Ok(None);
    };
    if !is_source(&rest) {
        return Ok(None);
    }
    match store.get(alloc, path)? {
        Some(bytes) => Ok(Some(File { path: rest, bytes })),
        None => Ok(None),
    }
}

fn is_source(path: &RelPath) -> bool
    ensures { result ≡ is_source path.now }
{
    !path.is_kept_apart() && path.as_str() != LOCK
}
