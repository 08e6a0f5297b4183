//! A case: a command with its files, and what must come of it.
ghost use Rattle.std.specs.Prelude.{◌≡◌, ◌↔◌, All, IsNone, IsTrue, None, Ok, string_bytes};
ghost use Rattle.pisa_cases.specs.Expected.{Agrees, IsSame};

use crate::ending::ending_words;
use crate::fault::LineFault;
use sim_main::simulate;
use ss_base::{Bytes, MemShelf, MemSink, Name, Shelf, Sink};
use std::alloc::{AllocError, Global};
use std::fmt;

/// How a command must end: with this status, and these words for its ending.
#[derive(Drop)]
pub struct ExpectedEnding {
    pub status: u8,
    pub words: Name,
}

/// What a case must come to, where it says so.
#[derive(Drop)]
pub struct Expected {
    pub ending: Option<ExpectedEnding>,
    pub output: Option<Bytes>,
    pub report: Option<Bytes>,
}

/// A case, as far as it was read.
#[derive(Drop)]
pub struct Case {
    pub name: String,
    pub words: Vec<String>,
    /// The files, which commands change.
    pub shelf: MemShelf,
    /// The files that must be held, and the names of all that were listed.
    pub held: MemShelf,
    pub names: Vec<String>,
    pub prog: MemSink,
    pub stat: MemSink,
    pub expected: Expected,
}

/// How what a command came to differs from what its case expects.
#[derive(Debug, Drop)]
pub enum Difference {
    /// It ended otherwise: with this status, and these words.
    Ending { status: u8, words: String },
    /// Other bytes are on standard output.
    Output { at: usize },
    /// Other bytes are on standard error.
    Report { at: usize },
    /// The file of this name is another one, or is there or not.
    File { name: String },
}

impl fmt::Display for Difference {
    fn fmt<W: fmt::Write>(&self, f: &mut fmt::Formatter<W>) -> fmt::Result {
        match self {
            Difference::Ending { status, words } => {
                let words = words.as_str();
                write!(f, "it ended with {status} {words}")
            }
            Difference::Output { at } => write!(f, "the output differs at byte {at}"),
            Difference::Report { at } => write!(f, "the report differs at byte {at}"),
            Difference::File { name } => {
                let name = name.as_str();
                write!(f, "the file {name} differs")
            }
        }
    }
}

impl Expected {
    /// Nothing is expected yet.
    fn new() -> Expected {
        Expected {
            ending: None,
            output: None,
            report: None,
        }
    }
}

impl Case {
    /// A case that gives and expects nothing yet.
    pub fn new(alloc: Global, name: String) -> Case {
        Case {
            name,
            words: Vec::new(alloc),
            shelf: MemShelf::new(alloc),
            held: MemShelf::new(alloc),
            names: Vec::new(alloc),
            prog: MemSink::new(alloc),
            stat: MemSink::new(alloc),
            expected: Expected::new(),
        }
    }

    /// Goes on to a further command over the files that the one before left.
    pub fn go_on(&mut self, alloc: Global) {
        self.words = Vec::new(alloc);
        self.prog = MemSink::new(alloc);
        self.stat = MemSink::new(alloc);
        self.expected = Expected::new();
    }
}

/// The first place at which bytes differ, none where they are the same.
fn first_difference(found: &[u8], wanted: &[u8]) -> Option<usize>
    ensures { IsNone result ↔ (found.now ≡ wanted.now) }
{
    if found == wanted {
        return None;
    }
    Some(
        found
            .iter()
            .zip(wanted)
            .take_while(|(one, other)| **one == **other)
            .count(),
    )
}

/// How an ending differs.
fn ending_difference(
    status: u8,
    words: String,
    wanted_status: u8,
    wanted_words: &str,
) -> Option<Difference>
    ensures { IsNone result ↔ ((status ≡ wanted_status) × (string_bytes words ≡ wanted_words.now)) }
{
    if status == wanted_status && words.as_str() == wanted_words {
        return None;
    }
    Some(Difference::Ending { status, words })
}

/// How what the streams got differs, the output first.
fn stream_difference(
    output: &[u8],
    report: &[u8],
    wanted_output: &[u8],
    wanted_report: &[u8],
) -> Option<Difference>
    ensures { IsNone result ↔ ((output.now ≡ wanted_output.now) × (report.now ≡ wanted_report.now)) }
{
    if let Some(at) = first_difference(output, wanted_output) {
        return Some(Difference::Output { at });
    }
    match first_difference(report, wanted_report) {
        Some(at) => Some(Difference::Report { at }),
        None => None,
    }
}

/// Whether a file is held as it must be.
fn is_held(shelf: &MemShelf, held: &MemShelf, name: &str) -> bool
    ensures { IsTrue result → IsSame (⟦<MemShelf as Shelf>⟧.files shelf.now) (⟦<MemShelf as Shelf>⟧.files held.now) name.now }
{
    match (shelf.bytes(name), held.bytes(name)) {
        (Some(found), Some(wanted)) => found == wanted,
        (None, None) => true,
        (Some(_), None) | (None, Some(_)) => false,
    }
}

/// Whether all these files are held as they must be.
fn are_held(shelf: &MemShelf, held: &MemShelf, names: &[String]) -> bool
    ensures { IsTrue result → All (λ name. IsSame (⟦<MemShelf as Shelf>⟧.files shelf.now) (⟦<MemShelf as Shelf>⟧.files held.now) (string_bytes name)) names.now }
{
    for name in names {
        if !is_held(shelf, held, name.as_str()) {
            return false;
        }
    }
    true
}

/// The name of the first file that isn't held as it must be.
fn first_other(
    alloc: Global,
    shelf: &MemShelf,
    held: &MemShelf,
    names: &[String],
) -> Result<String, AllocError> {
    for name in names {
        if !is_held(shelf, held, name.as_str()) {
            return String::from_str(alloc, name.as_str());
        }
    }
    Ok(String::new(alloc))
}

/// How the files that are held differ from those that must be.
fn file_difference(
    alloc: Global,
    shelf: &MemShelf,
    held: &MemShelf,
    names: &[String],
) -> Result<Option<Difference>, LineFault>
    ensures { result ≡ Ok None → All (λ name. IsSame (⟦<MemShelf as Shelf>⟧.files shelf.now) (⟦<MemShelf as Shelf>⟧.files held.now) (string_bytes name)) names.now }
{
    if are_held(shelf, held, names) {
        return Ok(None);
    }
    let name = first_other(alloc, shelf, held, names)?;
    Ok(Some(Difference::File { name }))
}

/// Performs a case, as far as it was read, and tells how what comes of it differs from what it expects.
pub fn perform(alloc: Global, case: &mut Case) -> Result<Option<Difference>, LineFault> {
    let ending = simulate(
        alloc,
        &case.words,
        &mut case.shelf,
        &mut case.prog,
        &mut case.stat,
    );
    let words = ending_words(alloc, &ending)?;
    judge(alloc, case, ending.status(), words)
}

/// Compares an ending, and what the streams got, with what a case expects.
fn judge_streams(
    expected: &Expected,
    status: u8,
    words: String,
    output: &[u8],
    report: &[u8],
) -> Result<Option<Difference>, LineFault>
    ensures { result ≡ Ok None → Agrees expected.now status (string_bytes words) output.now report.now }
{
    let Some(ending) = &expected.ending else {
        return Err(LineFault::NoEnding);
    };
    let Some(wanted_output) = &expected.output else {
        return Err(LineFault::NoOutput);
    };
    let Some(wanted_report) = &expected.report else {
        return Err(LineFault::NoReport);
    };
    if let Some(found) = ending_difference(status, words, ending.status, ending.words.as_str()) {
        return Ok(Some(found));
    }
    Ok(stream_difference(
        output,
        report,
        wanted_output.as_slice(),
        wanted_report.as_slice(),
    ))
}

/// Compares an ending, and what is held after it, with what a case expects.
fn judge(
    alloc: Global,
    case: &Case,
    status: u8,
    words: String,
) -> Result<Option<Difference>, LineFault>
    ensures agrees { result ≡ Ok None → Agrees case.now.expected status (string_bytes words) (⟦<MemSink as Sink>⟧.contents case.now.prog) (⟦<MemSink as Sink>⟧.contents case.now.stat) }
    ensures files { result ≡ Ok None → All (λ name. IsSame (⟦<MemShelf as Shelf>⟧.files case.now.shelf) (⟦<MemShelf as Shelf>⟧.files case.now.held) (string_bytes name)) case.now.names.items }
{
    let (output, report) = (case.prog.bytes(), case.stat.bytes());
    match judge_streams(&case.expected, status, words, output, report) {
        Ok(Some(found)) => Ok(Some(found)),
        Ok(None) => file_difference(alloc, &case.shelf, &case.held, &case.names),
        Err(fault) => Err(fault),
    }
}
