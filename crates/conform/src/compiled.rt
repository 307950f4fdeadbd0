// Cases of jobs that the built-in compiler compiles.

use case_texts::{Fault, app_name, folder, push_after, say, word};
use compile_model::{How, Input, Job, Origin, Outcome, Places, Texts};
use mx_base::{Bytes, Files, Names, RelPath, Shared, Text, Variables, listing_of};
use std::alloc::Global;
use tree_store::Contents;
use unit_compile::compile_unit;

/// `nothing`, `unit` or `program`, then for each file its path and its bytes. After `@APP` and an empty text come the
/// files of a need: the status, the text and the files.
pub(crate) fn compiled_case(
    alloc: Global,
    out: &mut String,
    texts: &[Vec<u8>],
) -> Result<(), Fault> {
    let [how, files @ ..] = texts else {
        return Err(Fault::Form);
    };
    let mut apps = Names::new(alloc);
    let mut folders = Vec::new(alloc);
    folders.push(Contents::new(alloc))?;
    for two in files.chunks(2) {
        let [path, bytes] = two else {
            return Err(Fault::Form);
        };
        match word(path.as_slice())?.strip_prefix('@') {
            Some(app) => {
                apps.push(app_name(alloc, app.as_bytes())?)?;
                folders.push(Contents::new(alloc))?;
            }
            None => put(alloc, folders.last_mut(), path.as_slice(), bytes.as_slice())?,
        }
    }
    let [sources, needs @ ..] = folders.as_slice() else {
        return Err(Fault::Form);
    };
    let job = job_of(
        alloc,
        how_of(alloc, word(how.as_slice())?)?,
        sources.files(alloc)?,
        apps,
    )?;
    let needs = outcomes_of(alloc, needs)?;
    push_compiled(alloc, out, &job, needs.as_slice())
}

fn put(
    alloc: Global,
    folder_of: Option<&mut Contents>,
    path: &[u8],
    bytes: &[u8],
) -> Result<(), Fault> {
    match folder_of {
        Some(contents) => {
            contents.put(folder(alloc, path)?, Bytes::from_slice(alloc, bytes)?)?;
            Ok(())
        }
        None => Err(Fault::Form),
    }
}

fn how_of(alloc: Global, how: &str) -> Result<How, Fault> {
    match how {
        "nothing" => Ok(How::Nothing),
        "unit" => Ok(How::Unit),
        "program" => Ok(How::Program(Texts::new(alloc))),
        _ => Err(Fault::Form),
    }
}

#[tactic(auto, using(mx_base::proofs::ListingLemmas::apart_from_order))]
fn job_of(alloc: Global, how: How, sources: Files, need_apps: Names) -> Result<Job, Fault> {
    let mut needs = Places::new(alloc);
    for _ in need_apps.as_slice() {
        needs.push(0)?;
    }
    let app = app_name(alloc, b"m")?;
    let version = Text::from_slice(alloc, b"1.0.0")?;
    let rows = listing_of(alloc, sources.as_slice())?;
    Ok(Job {
        app,
        version,
        origin: Origin::Path,
        options: Bytes::new(alloc),
        how,
        system_env: Variables::new(alloc),
        dir: RelPath::root(alloc),
        sources,
        rows,
        needs,
        need_apps,
    })
}

fn outcomes_of(alloc: Global, folders: &[Contents]) -> Result<Vec<Shared<Outcome>>, Fault> {
    let mut outcomes = Vec::new(alloc);
    for files in folders {
        let outcome = Outcome::of(alloc, 0, Bytes::new(alloc), files.files(alloc)?)?;
        outcomes.push(Shared::new(alloc, outcome)?)?;
    }
    Ok(outcomes)
}

fn push_compiled(
    alloc: Global,
    out: &mut String,
    job: &Job,
    needs: &[Shared<Outcome>],
) -> Result<(), Fault> {
    let apps = job.need_apps.as_slice().len();
    if needs.len() != apps || job.needs.as_slice().len() != apps {
        return Err(Fault::Form);
    }
    let outcome = compile_unit(alloc, &Input { job, needs })?;
    let status = outcome.status;
    write!(out, "ok {status}")?;
    push_after(alloc, out, " ", outcome.text.as_slice())?;
    for file in outcome.files.as_slice() {
        say(out, " ")?;
        say(out, file.path.as_str())?;
        push_after(alloc, out, " ", file.bytes.as_slice())?;
    }
    Ok(())
}
