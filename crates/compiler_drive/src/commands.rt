// By what a dependency is compiled.
ghost use Rattle.std.specs.Prelude.{◌≡◌, ◌==◌, map, IfOk};
ghost use Rattle.std.specs.List.{slice_split};
ghost use Rattle.compiler_drive.specs.Command.{command, set_for, words_in};

use compile_model::{How, Texts};
use dep_options::{CompileBy, Manager};
use mx_base::Text;
use project_file::Settings;
use std::alloc::{AllocError, Global};

/// By what a dependency is compiled: by the words of its declaration's command, else as the settings say for its
/// manager, or not at all where the declaration says so. A command is cut at its runs of spaces.
///
/// # Errors
///
/// `AllocError` where there is not enough memory.
pub fn command(
    alloc: Global,
    settings: &Settings,
    manager: Manager,
    compile: &CompileBy,
) -> Result<How, AllocError>
    ensures { IfOk result (λ how. how ≡ command settings.now manager compile.now) }
{
    match compile {
        CompileBy::Manager => set_for(settings, manager).clone(),
        CompileBy::Command(text) => Ok(How::Program(words_in(alloc, text.as_slice())?)),
        CompileBy::Nothing => Ok(How::Nothing),
    }
}

// What is set for a manager.
fn set_for(settings: &Settings, manager: Manager) -> &How
    ensures { result.now ≡ set_for settings.now manager }
{
    match manager {
        Manager::Mix => &settings.mix,
        Manager::Rebar3 => &settings.rebar3,
        Manager::Make => &settings.make,
    }
}

// A text cut at its runs of spaces.
fn words_in(alloc: Global, text: &[u8]) -> Result<Texts, AllocError>
    ensures { IfOk result (λ words. words ≡ words_in text.now) }
{
    let pieces = pieces(alloc, text)?;
    let mut words = Texts::new(alloc);
    for piece in &pieces {
        if !piece.is_empty() {
            words.push(Text::from_slice(alloc, *piece)?)?;
        }
    }
    Ok(words)
}

// What stands between the spaces of a text.
fn pieces(alloc: Global, text: &[u8]) -> Result<Vec<&[u8]>, AllocError>
    ensures { IfOk result (λ pieces. map (λ p. p.now) pieces.items
        ≡ slice_split (λ byte. byte == 32) text.now) }
{
    text.split(|byte| *byte == b' ').collect(alloc)
}
