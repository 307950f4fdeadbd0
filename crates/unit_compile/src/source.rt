// Unit files, as they are read.
ghost use Rattle.std.specs.Prelude.{◌≡◌, IsTrue, IfOk, filter, map};
ghost use Rattle.std.specs.Result.{ForOk};
ghost use Rattle.mx_base.specs.AppName.{is_app_name};
ghost use Rattle.unit_compile.specs.Units.{is_unit_file, ran_out, source_of};

use mx_base::{File, RelPath};
use std::alloc::{AllocError, Global};
use unit_lang::{Unit, UnitCause, UnitError, parse_unit};

/// A unit file: its path, and what it is read as.
#[derive(Drop)]
pub(crate) struct Source<'a> {
    pub(crate) path: &'a RelPath,
    pub(crate) read: Result<Unit, UnitError>,
    ghost named: { ForOk read (λ unit. IsTrue (is_app_name unit.name)) },
}

impl<'a> Source<'a> {
    ghost use Rattle.unit_compile.specs.Views.{source_in};

    /// The unit files among these.
    pub(crate) fn all_of(alloc: Global, files: &'a [File]) -> Result<Vec<Source<'a>>, AllocError>
        ensures { IfOk result (λ sources. map source_in sources.items
            ≡ map source_of (filter is_unit_file files.now)) }
    {
        let mut sources = Vec::new(alloc);
        for file in files {
            if !is_unit_file(file) {
                continue;
            }
            sources.push(Source::of(alloc, file)?)?;
        }
        Ok(sources)
    }

    fn of(alloc: Global, file: &'a File) -> Result<Source<'a>, AllocError>
        ensures { IfOk result (λ source. source_in source ≡ source_of file.now) }
    {
        let read = parse_unit(alloc, file.bytes.as_slice());
        if ran_out(&read) {
            return Err(AllocError);
        }
        Ok(Source {
            path: &file.path,
            read,
        })
    }
}

fn is_unit_file(file: &File) -> bool
    ensures { result ≡ is_unit_file file.now }
{
    file.path.as_str().as_bytes().ends_with(b".unit")
}

// Whether memory ran out.
fn ran_out(read: &Result<Unit, UnitError>) -> bool
    ensures { result ≡ ran_out read.now }
{
    match read {
        Ok(_) => false,
        Err(error) => matches!(error.cause, UnitCause::OutOfMemory),
    }
}
