// The options text of a job.
ghost use Rattle.std.specs.Prelude.{◌≡◌, [], ◌∷◌, ◌++◌, map, IfOk, OnOk};
ghost use Rattle.term_values.specs.declared.term.Term.TheVariants as term;
ghost use Rattle.build_plan.specs.Options.{names_terms, compiler_terms, keyword, truth, manager_name, compile_term, compiler_term, variable_term, target_terms, options_term, options_text};

use compile_model::How;
use dep_options::{CompileBy, Decl, Manager};
use elixir_terms::print;
use mx_base::{AppName, Bytes, HOST, Text, Variable, Variables};
use std::alloc::{AllocError, Global};
use term_values::{Term, Terms};

/// All that a declaration says of how it is compiled, with the version, the manager and the compiler of its app, and the
/// target unless that is `host`.
pub(crate) fn options_text(
    alloc: Global,
    version: &Text,
    decl: &Decl,
    manager: Manager,
    how: &How,
    target: &AppName,
) -> Result<Bytes, AllocError>
    ensures { IfOk result (λ text.
        text ≡ options_text version.now decl.now manager how.now target.now) }
{
    let term = options_term(alloc, version, decl, manager, how, target)?;
    print(alloc, &term)
}

fn options_term(
    alloc: Global,
    version: &Text,
    decl: &Decl,
    manager: Manager,
    how: &How,
    target: &AppName,
) -> Result<Term, AllocError>
    ensures { IfOk result (λ made.
        made ≡ options_term version.now decl.now manager how.now target.now) }
{
    let mut parts = Terms::new(alloc);
    add_names(alloc, &mut parts, version, decl, manager)?;
    add_compiler(alloc, &mut parts, decl, how)?;
    add_target(alloc, &mut parts, target)?;
    Ok(Term::List(parts))
}

/// Adds what the app is.
fn add_names(
    alloc: Global,
    parts: &mut Terms,
    version: &Text,
    decl: &Decl,
    manager: Manager,
) -> Result<(), AllocError>
    ensures { OnOk result (parts.new ≡ parts.old ++ names_terms version.now decl.now manager) }
{
    add(alloc, parts, "app", atom(alloc, decl.app.as_str())?)?;
    add(alloc, parts, "version", string(alloc, version.as_slice())?)?;
    add(alloc, parts, "env", atom(alloc, decl.env.as_str())?)?;
    add(alloc, parts, "manager", atom(alloc, manager_name(manager))?)?;
    Ok(())
}

/// Adds how it is compiled.
fn add_compiler(alloc: Global, parts: &mut Terms, decl: &Decl, how: &How) -> Result<(), AllocError>
    ensures { OnOk result (parts.new ≡ parts.old ++ compiler_terms decl.now how.now) }
{
    add(alloc, parts, "compile", compile_term(alloc, &decl.compile)?)?;
    add(alloc, parts, "compiler", compiler_term(alloc, how)?)?;
    add(alloc, parts, "app_file", truth(alloc, decl.app_file)?)?;
    let variables = variables_term(alloc, &decl.system_env)?;
    add(alloc, parts, "system_env", variables)?;
    Ok(())
}

/// Adds for what target it is compiled, unless that is `host`.
#[tactic(auto, using(crate::proofs::OptionLemmas::none_added))]
fn add_target(alloc: Global, parts: &mut Terms, target: &AppName) -> Result<(), AllocError>
    ensures { OnOk result (parts.new ≡ parts.old ++ target_terms target.now) }
{
    if target.as_str() == HOST {
        return Ok(());
    }
    add(alloc, parts, "target", atom(alloc, target.as_str())?)
}

/// Adds a value under a name.
fn add(alloc: Global, parts: &mut Terms, name: &str, value: Term) -> Result<(), AllocError>
    ensures { OnOk result (parts.new ≡ parts.old ++ keyword name.now value ∷ []) }
{
    parts.push(keyword(alloc, name, value)?)
}

fn atom(alloc: Global, name: &str) -> Result<Term, AllocError>
    ensures { IfOk result (λ made. made ≡ term.Atom name.now) }
{
    Ok(Term::Atom(Text::from_slice(alloc, name.as_bytes())?))
}

fn string(alloc: Global, bytes: &[u8]) -> Result<Term, AllocError>
    ensures { IfOk result (λ made. made ≡ term.Str bytes.now) }
{
    Ok(Term::Str(Bytes::from_slice(alloc, bytes)?))
}

fn keyword(alloc: Global, name: &str, value: Term) -> Result<Term, AllocError>
    ensures { IfOk result (λ made. made ≡ keyword name.now value) }
{
    pair(alloc, atom(alloc, name)?, value)
}

fn pair(alloc: Global, first: Term, second: Term) -> Result<Term, AllocError>
    ensures { IfOk result (λ made. made ≡ term.Tuple (first ∷ second ∷ [])) }
{
    let mut parts = Terms::new(alloc);
    parts.push(first)?;
    parts.push(second)?;
    Ok(Term::Tuple(parts))
}

fn truth(alloc: Global, holds: bool) -> Result<Term, AllocError>
    ensures { IfOk result (λ made. made ≡ truth holds) }
{
    atom(alloc, if holds { "true" } else { "false" })
}

fn manager_name(manager: Manager) -> &'static str
    ensures { result.now ≡ manager_name manager }
{
    match manager {
        Manager::Mix => "mix",
        Manager::Rebar3 => "rebar3",
        Manager::Make => "make",
    }
}

fn compile_term(alloc: Global, compile: &CompileBy) -> Result<Term, AllocError>
    ensures { IfOk result (λ made. made ≡ compile_term compile.now) }
{
    match compile {
        CompileBy::Manager => truth(alloc, true),
        CompileBy::Command(text) => string(alloc, text.as_slice()),
        CompileBy::Nothing => truth(alloc, false),
    }
}

fn compiler_term(alloc: Global, how: &How) -> Result<Term, AllocError>
    ensures { IfOk result (λ made. made ≡ compiler_term how.now) }
{
    match how {
        How::Nothing => atom(alloc, "none"),
        How::Unit => atom(alloc, "unit"),
        How::Program(words) => words_term(alloc, words.as_slice()),
    }
}

fn words_term(alloc: Global, words: &[Text]) -> Result<Term, AllocError>
    ensures { IfOk result (λ made. made ≡ term.List (map (λ word. term.Str word) words.now)) }
{
    let mut parts = Terms::new(alloc);
    for word in words {
        parts.push(string(alloc, word.as_slice())?)?;
    }
    Ok(Term::List(parts))
}

fn variables_term(alloc: Global, variables: &Variables) -> Result<Term, AllocError>
    ensures { IfOk result (λ made. made ≡ term.List (map variable_term variables.now)) }
{
    pairs_term(alloc, variables.as_slice())
}

fn pairs_term(alloc: Global, variables: &[Variable]) -> Result<Term, AllocError>
    ensures { IfOk result (λ made. made ≡ term.List (map variable_term variables.now)) }
{
    let mut parts = Terms::new(alloc);
    for variable in variables {
        parts.push(variable_term(alloc, variable)?)?;
    }
    Ok(Term::List(parts))
}

fn variable_term(alloc: Global, variable: &Variable) -> Result<Term, AllocError>
    ensures { IfOk result (λ made. made ≡ variable_term variable.now) }
{
    let name = string(alloc, variable.name.as_slice())?;
    match string(alloc, variable.value.as_slice()) {
        Ok(value) => pair(alloc, name, value),
        Err(error) => {
            drop(name);
            Err(error)
        }
    }
}
