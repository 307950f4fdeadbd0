// The elements of a script.
ghost use Rattle.std.specs.Prelude.{◌≡◌, IfOk, option_and_then};
ghost use Rattle.session_script.specs.Elements.{clean_in, clean_by, compile_in, compile_by, edit_by, edit_of, put_by, put_in, remove_by, remove_in};

use crate::build_choice::BuildChoice;
use crate::edit::Edit;
use crate::fields::{build_of, count_of, host_build, names_of, path_of};
use elixir_terms::Term;
use mx_base::Bytes;
use std::alloc::{AllocError, Global};

/// What an element asks for, where it has one of the forms.
pub(crate) fn edit_of(alloc: Global, element: &Term) -> Result<Option<Edit>, AllocError>
    ensures { IfOk result (λ found. found ≡ edit_of element.now) }
{
    match element.as_tuple() {
        Some([tag, fields @ ..]) => match tag.as_atom() {
            Some(name) => edit_by(alloc, name.as_slice(), fields),
            None => Ok(None),
        },
        _ => Ok(None),
    }
}

// The edit of a name, by the fields behind it.
fn edit_by(alloc: Global, name: &[u8], fields: &[Term]) -> Result<Option<Edit>, AllocError>
    ensures { IfOk result (λ found. found ≡ edit_by name.now fields.now) }
{
    if name == b"put".as_slice() {
        put_in(alloc, fields)
    } else if name == b"remove".as_slice() {
        remove_in(alloc, fields)
    } else if name == b"clean".as_slice() {
        clean_in(alloc, fields)
    } else if name == b"compile".as_slice() {
        compile_in(alloc, fields)
    } else {
        Ok(None)
    }
}

fn put_in(alloc: Global, fields: &[Term]) -> Result<Option<Edit>, AllocError>
    ensures { IfOk result (λ found. found ≡ put_in fields.now) }
{
    match fields {
        [path, bytes] => put_by(alloc, path, bytes),
        _ => Ok(None),
    }
}

fn put_by(alloc: Global, path: &Term, bytes: &Term) -> Result<Option<Edit>, AllocError>
    ensures { IfOk result (λ found. found ≡ put_by path.now bytes.now) }
{
    let Some(path) = path_of(alloc, path)? else {
        return Ok(None);
    };
    let Some(bytes) = bytes.as_string() else {
        return Ok(None);
    };
    let bytes = Bytes::from_slice(alloc, bytes.as_slice())?;
    Ok(Some(Edit::Put { path, bytes }))
}

fn remove_in(alloc: Global, fields: &[Term]) -> Result<Option<Edit>, AllocError>
    ensures { IfOk result (λ found. found ≡ remove_in fields.now) }
{
    match fields {
        [path] => remove_by(alloc, path),
        _ => Ok(None),
    }
}

fn remove_by(alloc: Global, path: &Term) -> Result<Option<Edit>, AllocError>
    ensures { IfOk result (λ found. found ≡ remove_by path.now) }
{
    match path_of(alloc, path)? {
        Some(path) => Ok(Some(Edit::Remove { path })),
        None => Ok(None),
    }
}

fn clean_in(alloc: Global, fields: &[Term]) -> Result<Option<Edit>, AllocError>
    ensures { IfOk result (λ found. found ≡ clean_in fields.now) }
{
    match fields {
        [env, apps] => clean_by(alloc, host_build(alloc, env)?, apps),
        [env, target, apps] => clean_by(alloc, build_of(alloc, env, target)?, apps),
        _ => Ok(None),
    }
}

fn clean_by(
    alloc: Global,
    build: Option<BuildChoice>,
    apps: &Term,
) -> Result<Option<Edit>, AllocError>
    ensures { IfOk result (λ found. found ≡ option_and_then (clean_by apps.now) build) }
{
    let Some(build) = build else {
        return Ok(None);
    };
    match names_of(alloc, apps)? {
        Some(apps) => Ok(Some(Edit::Clean { build, apps })),
        None => Ok(None),
    }
}

fn compile_in(alloc: Global, fields: &[Term]) -> Result<Option<Edit>, AllocError>
    ensures { IfOk result (λ found. found ≡ compile_in fields.now) }
{
    match fields {
        [env, count] => Ok(compile_by(host_build(alloc, env)?, count)),
        [env, target, count] => Ok(compile_by(build_of(alloc, env, target)?, count)),
        _ => Ok(None),
    }
}

fn compile_by(build: Option<BuildChoice>, count: &Term) -> Option<Edit>
    ensures { result ≡ option_and_then (compile_by count.now) build }
{
    let build = build?;
    let partitions = count_of(count)?;
    Some(Edit::Compile { build, partitions })
}
