// Cases of the words of the command line.

use case_texts::{Fault, refused, say, word};
use mix_words::{BuildChoice, Command, WordsError, read_words};
use mx_base::AppName;
use std::alloc::Global;

/// Words: the command that they mean, with its fields.
pub(crate) fn words_case(alloc: Global, out: &mut String, texts: &[Vec<u8>]) -> Result<(), Fault> {
    let mut words = Vec::new(alloc);
    for text in texts {
        words.push(String::from_str(alloc, word(text.as_slice())?)?)?;
    }
    match read_words(alloc, words.as_slice()) {
        Ok(command) => push_command(out, &command),
        Err(WordsError::Refused { at }) => refused(out, at, "Refused"),
        Err(WordsError::OutOfMemory) => Err(Fault::Memory),
    }
}

fn push_command(out: &mut String, command: &Command) -> Result<(), Fault> {
    say(out, "ok ")?;
    match command {
        Command::Help => say(out, "help"),
        Command::Deps { build } => push_build(out, "deps", build),
        Command::Stale { build } => push_build(out, "stale", build),
        Command::Compile {
            build,
            partitions,
            plain,
            trace,
        } => {
            push_build(out, "compile", build)?;
            push_count(out, *partitions)?;
            push_flag(out, *plain)?;
            push_flag(out, *trace)
        }
        Command::Clean { build, apps } => {
            push_build(out, "clean", build)?;
            push_apps(out, apps.as_slice())
        }
    }
}

fn push_build(out: &mut String, name: &str, build: &BuildChoice) -> Result<(), Fault> {
    let env = build.env().as_str();
    let target = build.target().as_str();
    write!(out, "{name} {env} {target}")?;
    Ok(())
}

fn push_count(out: &mut String, count: Option<u32>) -> Result<(), Fault> {
    match count {
        Some(count) => {
            write!(out, " {count}")?;
            Ok(())
        }
        None => say(out, " -"),
    }
}

fn push_flag(out: &mut String, flag: bool) -> Result<(), Fault> {
    say(out, if flag { " yes" } else { " no" })
}

fn push_apps(out: &mut String, apps: &[AppName]) -> Result<(), Fault> {
    for app in apps {
        say(out, " ")?;
        say(out, app.as_str())?;
    }
    Ok(())
}
