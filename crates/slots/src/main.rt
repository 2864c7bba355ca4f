// Shows people what the analyser finds in packed trees: each file named on the command line is read, analysed and put in words.

#![tactic(auto)]

mod files;
mod help;
mod refusals;
mod report;

use call_root::AnalysisReport;
use files::read_file;
use help::{DIAGNOSTICS, LIMIT, OUT, TABLE, TREE, show_help};
use refusals::Refusal;
use report::show_report;
use slots_text::diagnostics::show_diagnostics;
use slots_text::layout::show_records;
use slots_text::parts::front;
use state::Limits;
use std::env::{Env, FillError};
use std::io;
use std::rt::Files;

// What became of one file.
#[derive(Clone, Copy, PartialEq, Eq, Debug)]
enum Outcome {
    Clean,
    WithErrors,
    Refused,
    Unread,
}

// Whether records are left out from here on, and what became of the files so far.
#[derive(Clone, Copy, PartialEq, Eq, Debug, Default)]
struct Run {
    quiet: bool,
    clean: u64,
    with_errors: u64,
    refused: u64,
    unread: u64,
}

impl Run {
    fn count(&mut self, outcome: Outcome) {
        let counter = match outcome {
            Outcome::Clean => &mut self.clean,
            Outcome::WithErrors => &mut self.with_errors,
            Outcome::Refused => &mut self.refused,
            Outcome::Unread => &mut self.unread,
        };
        *counter = counter.wrapping_add(1);
    }
}

const LIMITS: Limits = Limits {
    max_locals: LIMIT,
    max_frames: LIMIT,
    max_captures: LIMIT,
    max_references: LIMIT,
};

// The analysis, with working tables of its own, which lie on the stack only while it runs: so it isn't inlined.
#[inline(never)]
fn analysed(tree: &[u8], out: &mut [u8], diagnostics: &mut [u8]) -> AnalysisReport {
    let mut locals = [0u32; TABLE];
    let mut frames = [0u32; TABLE];
    let mut captures = [0u32; TABLE];
    let mut references = [0u32; TABLE];
    analyze::analyze_root(
        tree,
        out,
        diagnostics,
        &mut locals,
        &mut frames,
        &mut captures,
        &mut references,
        LIMITS,
    )
}

fn on_tree(rt: &impl Print, tree: &[u8], quiet: bool) -> io::Result<Outcome> {
    let mut out = [0u8; OUT];
    let mut diagnostics = [0u8; DIAGNOSTICS];
    let r = analysed(tree, &mut out, &mut diagnostics);
    if r.number != 0 {
        rt.println(Refusal {
            number: r.number,
            place: r.place,
        })?;
        return Ok(Outcome::Refused);
    }
    let records = show_records(rt, front(&out, r.out_length), !quiet)?;
    let tally = show_diagnostics(rt, front(&diagnostics, r.diagnostics_length))?;
    show_report(rt, r, tree.len(), records, tally)?;
    if r.errored {
        Ok(Outcome::WithErrors)
    } else {
        Ok(Outcome::Clean)
    }
}

fn on_file(rt: &(impl Files + Input + Print), name: &[u8], quiet: bool) -> io::Result<Outcome> {
    rt.write_all(b"== ")?;
    rt.write_all(name)?;
    rt.write_all(b"\n")?;
    let mut bytes = [0u8; TREE];
    match read_file(rt, name, &mut bytes) {
        Ok(n) => on_tree(rt, front(&bytes, n), quiet),
        Err(error) => {
            println!(rt; "{error}")?;
            Ok(Outcome::Unread)
        }
    }
}

// An option, or the name of a file.
fn on_word(rt: &(impl Files + Input + Print), word: &[u8], run: &mut Run) -> io::Result<()> {
    match word {
        b"-h" | b"--help" => return show_help(rt),
        b"-q" => run.quiet = true,
        _ => run.count(on_file(rt, word, run.quiet)?),
    }
    Ok(())
}

fn on_argument(rt: &(impl Env + Files + Input + Print), i: usize, run: &mut Run) -> io::Result<()> {
    let mut word = [0u8; 4096];
    match rt.arg(i, &mut word) {
        Ok(n) => on_word(rt, &word[..n], run),
        Err(_) => {
            println!(rt; "not read: argument {i} is too long")?;
            run.count(Outcome::Unread);
            Ok(())
        }
    }
}

// How many arguments there are, of which the first is the program's name.
fn arg_count(rt: &impl Env) -> usize {
    (0..usize::MAX)
        .find(|i| matches!(rt.arg(*i, &mut [0u8; 1]), Err(FillError::NotPresent)))
        .unwrap_or(usize::MAX)
}

// The last line, where a file was named.
fn show_totals(rt: &impl Print, run: &Run) -> io::Result<()> {
    let Run {
        clean,
        with_errors,
        refused,
        unread,
        ..
    } = *run;
    if clean == 0 && with_errors == 0 && refused == 0 && unread == 0 {
        return Ok(());
    }
    println!(rt;
        "files: clean {clean}, with errors {with_errors}, refused {refused}, not read {unread}"
    )
}

fn main(rt: HostRuntime) -> io::Result<()> {
    let count = arg_count(&rt);
    if count < 2 {
        return show_help(&rt);
    }
    let mut run = Run::default();
    for i in 1..count {
        on_argument(&rt, i, &mut run)?;
    }
    show_totals(&rt, &run)
}
