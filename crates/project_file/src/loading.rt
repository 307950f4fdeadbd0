// The files of a project, read from a store or as texts.
ghost use Rattle.std.specs.Prelude.{IsFalse};
ghost use Rattle.mx_base.specs.Blame.{Answers, Computes, fails};
ghost use Rattle.mx_base.specs.Layout.{is_in_build};
ghost use Rattle.tree_store.specs.Known.{Told, OnlyReads};
ghost use Rattle.project_file.specs.Blame.{project_blame, settings_blame};
ghost use Rattle.project_file.specs.Files.{IsManifest, SaysProject, IsLoaded, SaysSettings, AreSettings, IsOfText, manifest_at, settings_path};

use crate::compilers::{no_settings, settings_of};
use crate::error::{ProjectError, SettingsError};
use crate::manifest::project_in;
use crate::project::Project;
use crate::settings::Settings;
use elixir_terms::read;
use mx_base::{Bytes, MANIFEST, RelPath, SETTINGS};
use std::alloc::Global;
use tree_store::Store;

/// Reads the manifest of a folder, and answers none where the folder has no manifest.
pub fn load_project<S: Store>(
    alloc: Global,
    store: &mut S,
    dir: &RelPath,
) -> Result<Option<Project>, ProjectError>
    requires { IsFalse (is_in_build dir.now) }
    // Of the manifest's text, whether the store tells it or not.
    ensures found { Answers project_blame result
        (IsOfText (S.known store.old) (manifest_at dir.now) (SaysProject dir.now)) }
    ensures answer { Answers project_blame result
        (Told (S.known store.old) (λ files. IsLoaded files dir.now)) }
    ensures reads { OnlyReads (S.known store.old) (S.known store.new) (fails project_blame result) }
{
    let path = dir.child(alloc, MANIFEST)?;
    let text = store.get(alloc, &path)?;
    project_found(alloc, dir, text)
}

// What the text that was found in the manifest's place says.
fn project_found(
    alloc: Global,
    dir: &RelPath,
    text: Option<Bytes>,
) -> Result<Option<Project>, ProjectError>
    ensures { Computes project_blame result (SaysProject dir.now text) }
{
    match text {
        Some(text) => Ok(Some(project_of_text(alloc, dir, text.as_slice())?)),
        None => Ok(None),
    }
}

/// Reads the text of the manifest of a folder.
pub fn project_of_text(alloc: Global, dir: &RelPath, text: &[u8]) -> Result<Project, ProjectError>
    ensures { Computes project_blame result (IsManifest dir.now text.now) }
{
    let term = read(alloc, text)?;
    project_in(alloc, dir, &term)
}

/// Reads the settings of a project, and answers what stands without them where it has none.
pub fn load_settings<S: Store>(alloc: Global, store: &mut S) -> Result<Settings, SettingsError>
    // Of the settings' text, whether the store tells it or not.
    ensures found { Answers settings_blame result
        (IsOfText (S.known store.old) settings_path SaysSettings) }
    ensures answer { Answers settings_blame result (Told (S.known store.old) AreSettings) }
    ensures reads { OnlyReads (S.known store.old) (S.known store.new)
        (fails settings_blame result) }
{
    let path = RelPath::root(alloc).child(alloc, SETTINGS)?;
    let text = store.get(alloc, &path)?;
    settings_found(alloc, text)
}

// What the text that was found in the settings' place says.
fn settings_found(alloc: Global, text: Option<Bytes>) -> Result<Settings, SettingsError>
    ensures { Computes settings_blame result (SaysSettings text) }
{
    let Some(text) = text else {
        return Ok(no_settings());
    };
    let term = read(alloc, text.as_slice())?;
    match settings_of(alloc, &term)? {
        Some(settings) => Ok(settings),
        None => Err(SettingsError::Shape),
    }
}
