//! What options ask for.
ghost use Rattle.std.specs.Prelude.{◌≡◌, [], map, string_bytes, unwrap_or, IfOk};
ghost use Rattle.std.specs.Option.{option_copied};
ghost use Rattle.sim_opts.specs.Options.{said_in};
ghost use Rattle.sim_opts.specs.Request.{command_of, asked};
ghost use Rattle.sim_opts.specs.Borrowed.{point_in, request_in};

use crate::asked::{clash, place_of};
use crate::options::Options;
use crate::table::Tool;
use crate::words::WordWhy;
use ss_base::{Name, OutOfMemory};
use std::alloc::Global;

/// What is asked for. Its texts are those of the options.
#[derive(Debug, Drop)]
pub enum Request<'a> {
    /// Run an object.
    SimSafe(SimSafe<'a>),
    /// Run an object and record its calls.
    Record(Record<'a>),
    /// Make an object of a source.
    Asm {
        /// The file that is read.
        source: &'a str,
        /// The file that is written.
        object: &'a str,
    },
    /// Print the instructions of an object.
    Dis {
        /// The file that is read.
        object: &'a str,
    },
    /// Nothing: the words are wrong at this place, counted from 0, or 2^32 - 1 where that is less.
    Words {
        /// The place.
        at: u32,
        /// The reason.
        why: WordWhy,
    },
    /// Something that is not built.
    NotBuilt,
}

/// A point that a run writes.
#[derive(Clone, Copy, Debug, PartialEq, Eq)]
pub struct PointFile<'a> {
    /// The file that it is written to.
    pub file: &'a str,
    /// Behind how many instructions it is taken, at most 10^12, those that are skipped among them.
    pub at: u64,
}

/// A run of an object.
#[derive(Clone, Copy, Debug)]
pub struct SimSafe<'a> {
    /// The file of the object.
    pub object: &'a str,
    /// The arguments that the program finds, of which the object's name is the first. A run from a point
    /// has no other, and doesn't look at it.
    pub args: &'a [String],
    /// The file of the recorded calls, if any.
    pub trace: Option<&'a str>,
    /// The file of the point that the run starts from, if it doesn't start the program.
    pub restart: Option<&'a str>,
    /// How many steps are skipped first, at most 10^12.
    pub skip: u64,
    /// The most instructions that are done behind them, at most 10^12.
    pub max_inst: u64,
    /// The file that the commit text is written to, if any.
    pub commits: Option<&'a str>,
    /// The point that the run writes, if any.
    pub point: Option<PointFile<'a>>,
}

/// A run of an object whose calls are recorded.
#[derive(Debug, Drop)]
pub struct Record<'a> {
    /// The file that the trace is written to.
    pub out: &'a str,
    /// The file that is the program's input, if any.
    pub input: Option<&'a str>,
    /// The files that the program can open.
    pub files: Vec<&'a str>,
    /// The most instructions that are done, at most 10^12.
    pub max_inst: u64,
    /// The file of the object.
    pub object: &'a str,
    /// The arguments that the program finds, of which the object's name is the first.
    pub args: &'a [String],
}

/// The text of a name, if there is one.
fn text_of(name: &Option<Name>) -> Option<&str>
    ensures { option_copied result ≡ name.now }
{
    match name {
        Some(name) => Some(name.as_str()),
        None => None,
    }
}

/// The text of a name, which is empty where there is none.
fn text_or_empty(name: &Option<Name>) -> &str
    ensures { result.now ≡ unwrap_or name.now [] }
{
    match name {
        Some(name) => name.as_str(),
        None => "",
    }
}

/// The texts of names.
fn texts_of(alloc: Global, names: &[String]) -> Result<Vec<&str>, OutOfMemory>
    ensures { IfOk result (λ texts. map (λ text. text.now) texts.items ≡ map string_bytes names.now) }
{
    let mut texts = Vec::new(alloc);
    for name in names {
        texts.push(name.as_str())?;
    }
    Ok(texts)
}

/// The point that is written, if one is.
fn point_file(point: &Option<(Name, u64)>) -> Option<PointFile<'_>>
    ensures { point_in result ≡ point.now }
{
    match point {
        Some((file, at)) => Some(PointFile {
            file: file.as_str(),
            at: *at,
        }),
        None => None,
    }
}

impl Options {
    /// A run of an object.
    fn sim_safe(&self) -> Request<'_>
        ensures { request_in result ≡ command_of Tool.SimSafe (said_in self.now) }
    {
        Request::SimSafe(SimSafe {
            object: self.object.as_str(),
            args: self.args.as_slice(),
            trace: text_of(&self.trace),
            restart: text_of(&self.restart),
            skip: self.fastfwd,
            max_inst: self.max_inst,
            commits: text_of(&self.commits),
            point: point_file(&self.chkpt),
        })
    }

    /// A run of an object whose calls are recorded.
    fn recording(&self, alloc: Global) -> Result<Request<'_>, OutOfMemory>
        ensures { IfOk result (λ r. request_in r ≡ command_of Tool.Record (said_in self.now)) }
    {
        let files = texts_of(alloc, self.files.as_slice())?;
        Ok(Request::Record(Record {
            out: text_or_empty(&self.out),
            input: text_of(&self.input),
            files,
            max_inst: self.max_inst,
            object: self.object.as_str(),
            args: self.args.as_slice(),
        }))
    }

    /// What the command is asked for.
    fn command(&self, alloc: Global) -> Result<Request<'_>, OutOfMemory>
        ensures { IfOk result (λ r. request_in r ≡ command_of self.now.tool (said_in self.now)) }
    {
        match self.tool {
            Tool::SimSafe => Ok(self.sim_safe()),
            Tool::Record => self.recording(alloc),
            Tool::Asm => Ok(Request::Asm {
                source: text_or_empty(&self.source),
                object: self.object.as_str(),
            }),
            Tool::Dis => Ok(Request::Dis {
                object: self.object.as_str(),
            }),
        }
    }

    /// What options ask for that so many words and their configuration say: where they clash, the words
    /// are wrong at their end. It takes memory for the files of a recording.
    #[tactic(auto, unfolding(crate::specs::Request::asked))]
    pub fn request(&self, alloc: Global, words: usize) -> Result<Request<'_>, OutOfMemory>
        ensures { IfOk result (λ r. request_in r ≡ asked words (said_in self.now)) }
    {
        if clash(self) {
            return Ok(Request::Words {
                at: place_of(words),
                why: WordWhy::Clash,
            });
        }
        self.command(alloc)
    }
}
