//! The program `conform`: it reads cases from its standard input, one a line, asks the public calls of the libraries,
//! and prints each answer on one line. A line that begins with `#` is printed as it is.
//!
//! A case is the name of its kind and then texts, with one space before each. `docs/TESTING.md` has the kinds, how
//! texts are written and what is answered.
#![tactic(auto)]

mod compiled;
mod compilers;
mod frames;
mod graphs;
mod locks;
mod manifests;
mod marks;
mod messages;
mod picks;
mod rows;
mod terms;
mod units;
mod wanted;
mod words;
mod writable;

use case_texts::{Cases, Fault, told};
use compiled::compiled_case;
use compilers::{command_case, manager_case, settings_case};
use frames::{frame_case, frames_case};
use graphs::{closure_case, order_case};
use locks::lock_case;
use manifests::{decls_case, manifest_case, project_case};
use marks::{listing_case, mark_case};
use messages::{message_case, write_case};
use picks::{breach_case, pick_case, registry_case};
use rows::{converge_case, reach_case, reach_for_case, rows_case};
use std::alloc::Global;
use std::io;
use std::io::{BufRead, BufReader, BufWriter, Write};
use terms::{
    build_case, join_case, match_case, name_case, print_case, requirement_case, term_case,
    version_case,
};
use units::unit_case;
use words::words_case;

/// The cases of texts, and of calls over values.
struct Texts {}

impl Cases for Texts {
    fn answer(
        &self,
        alloc: Global,
        out: &mut String,
        kind: &str,
        texts: &[Vec<u8>],
    ) -> Result<(), Fault> {
        text_answer(alloc, out, kind, texts)
    }
}

fn main(rt: HostRuntime) -> io::Result<()> {
    let alloc = rt.alloc();
    let mut out = BufWriter::new(alloc, io::writer(&rt))?;
    for line in BufReader::new(alloc, rt.reader())?.lines(alloc) {
        let line = line?;
        let told = told(alloc, &Texts {}, line.as_str())?;
        writeln!(out, "{}", told.as_str())?;
    }
    out.flush()
}

/// Answers a case about texts: what they say, and how it is written.
fn text_answer(
    alloc: Global,
    out: &mut String,
    kind: &str,
    texts: &[Vec<u8>],
) -> Result<(), Fault> {
    match kind {
        "term" => term_case(alloc, out, texts),
        "print" => print_case(alloc, out, texts),
        "name" => name_case(alloc, out, texts),
        "build" => build_case(alloc, out, texts),
        "join" => join_case(alloc, out, texts),
        "version" => version_case(alloc, out, texts),
        "requirement" => requirement_case(alloc, out, texts),
        "match" => match_case(alloc, out, texts),
        "message" => message_case(alloc, out, texts),
        "write" => write_case(alloc, out, texts),
        "unit" => unit_case(alloc, out, texts),
        "decls" => decls_case(alloc, out, texts),
        "project" => project_case(alloc, out, texts),
        "lock" => lock_case(alloc, out, texts),
        "listing" => listing_case(alloc, out, texts),
        "mark" => mark_case(alloc, out, texts),
        "frame" => frame_case(alloc, out, texts),
        "frames" => frames_case(alloc, out, texts),
        "words" => words_case(alloc, out, texts),
        _ => call_answer(alloc, out, kind, texts),
    }
}

/// Answers a case about projects, registries and graphs.
fn call_answer(
    alloc: Global,
    out: &mut String,
    kind: &str,
    texts: &[Vec<u8>],
) -> Result<(), Fault> {
    match kind {
        "unit_compile" => compiled_case(alloc, out, texts),
        "manifest" => manifest_case(alloc, out, texts),
        "registry" => registry_case(alloc, out, texts),
        "pick" => pick_case(alloc, out, texts),
        "breach" => breach_case(alloc, out, texts),
        "settings" => settings_case(alloc, out, texts),
        "manager" => manager_case(alloc, out, texts),
        "command" => command_case(alloc, out, texts),
        "order" => order_case(alloc, out, texts),
        "closure" => closure_case(alloc, out, texts),
        "rows" => rows_case(alloc, out, texts),
        "converge" => converge_case(alloc, out, texts),
        "reach" => reach_case(alloc, out, texts),
        "reach_for" => reach_for_case(alloc, out, texts),
        _ => Err(Fault::Form),
    }
}
