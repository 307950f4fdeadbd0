// How refusals are shown.

use crate::fields::Fault;
use crate::shown::{push_after, refused, say};
use converger::Rule;
use dep_options::{OptionCause, OptionError};
use elixir_terms::{Feature, TermCause, TermError};
use mx_base::Text;
use project_file::{ProjectError, SettingsError};
use std::alloc::Global;

pub fn refused_term(out: &mut String, error: TermError) -> Result<(), Fault> {
    refused(out, error.at, term_cause(error.cause))
}

fn term_cause(cause: TermCause) -> &'static str {
    match cause {
        TermCause::Unsupported(Feature::Charlist) => "Unsupported(Charlist)",
        TermCause::Unsupported(Feature::Sigil) => "Unsupported(Sigil)",
        TermCause::Unsupported(Feature::Heredoc) => "Unsupported(Heredoc)",
        TermCause::Unsupported(Feature::Interpolation) => "Unsupported(Interpolation)",
        TermCause::Unsupported(Feature::Float) => "Unsupported(Float)",
        TermCause::Unsupported(Feature::Alias) => "Unsupported(Alias)",
        TermCause::Unsupported(Feature::Bits) => "Unsupported(Bits)",
        TermCause::BadEscape => "BadEscape",
        TermCause::BadUtf8 => "BadUtf8",
        TermCause::NumberTooBig => "NumberTooBig",
        TermCause::TooDeep => "TooDeep",
        TermCause::DuplicateKey => "DuplicateKey",
        TermCause::TrailingText => "TrailingText",
        TermCause::Unclosed => "Unclosed",
        TermCause::Unexpected => "Unexpected",
        TermCause::TooLong => "TooLong",
        TermCause::OutOfMemory => "OutOfMemory",
    }
}

pub fn refused_settings(out: &mut String, error: &SettingsError) -> Result<(), Fault> {
    match error {
        SettingsError::Read => say(out, "refused - Read"),
        SettingsError::Term(error) => refused_term(out, *error),
        SettingsError::Shape => say(out, "refused - Shape"),
        SettingsError::OutOfMemory => Err(Fault::Memory),
    }
}

pub fn refused_project(alloc: Global, out: &mut String, error: &ProjectError) -> Result<(), Fault> {
    match error {
        ProjectError::Read => say(out, "refused - Read"),
        ProjectError::Term(error) => refused_term(out, *error),
        ProjectError::Shape => say(out, "refused - Shape"),
        ProjectError::Options(error) => refused_decls(alloc, out, error),
        ProjectError::OutOfMemory => Err(Fault::Memory),
    }
}

pub fn refused_decls(alloc: Global, out: &mut String, error: &OptionError) -> Result<(), Fault> {
    match &error.cause {
        OptionCause::Shape => refused(out, error.index, "Shape"),
        OptionCause::BadRequirement => refused(out, error.index, "BadRequirement"),
        OptionCause::UnknownOption(name) => refused_option(
            alloc,
            out,
            error,
            "UnknownOption",
            name,
        ),
        OptionCause::UnsupportedSource(name) => {
            refused_option(alloc, out, error, "UnsupportedSource", name)
        }
        OptionCause::BadValue(name) => refused_option(alloc, out, error, "BadValue", name),
        OptionCause::NoSource => refused(out, error.index, "NoSource"),
        OptionCause::OutOfMemory => Err(Fault::Memory),
    }
}

pub fn rule_name(rule: Rule) -> &'static str {
    match rule {
        Rule::V1 => "V1",
        Rule::V2 => "V2",
        Rule::V3 => "V3",
        Rule::V4 => "V4",
    }
}

fn refused_option(
    alloc: Global,
    out: &mut String,
    error: &OptionError,
    cause: &str,
    name: &Text,
) -> Result<(), Fault> {
    refused(out, error.index, cause)?;
    push_after(alloc, out, " ", name.as_slice())
}
