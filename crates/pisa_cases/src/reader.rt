//! Files of cases, line by line.
use crate::bytes::{cut, is_listing, list, number};
use crate::case::{Case, Difference, ExpectedEnding, perform};
use crate::fault::LineFault;
use ss_base::{Bytes, MemShelf, Name};
use std::alloc::{AllocError, Global};
use std::mem;

/// What a line came to.
#[derive(Debug, Drop)]
pub enum Told {
    /// It is a part of a case, or stands between cases.
    Nothing,
    /// It ended a case, of which all came as it expects.
    Passed,
    /// It ended a case, or a command of one, that came otherwise.
    Failed(Difference),
    /// The case of this name has no `end`.
    NotEnded(String),
}

/// Where the next line stands.
#[derive(Clone, Copy, Debug, PartialEq, Eq)]
enum Place {
    /// Between cases.
    Between,
    /// In a case.
    Within,
    /// In a case that has failed or was refused, of which the rest is passed over.
    Over,
}

/// What the bytes are that are being listed.
#[derive(Debug, Drop)]
enum Block {
    /// None are.
    Nothing,
    /// Bytes that later cases can name.
    Defined(String),
    /// A file before the command.
    File(String),
    /// A file after it.
    Left(String),
    /// What standard output gets.
    Output,
    /// What standard error gets.
    Report,
}

/// A file of cases, as far as it was read.
#[derive(Drop)]
pub struct Reader {
    alloc: Global,
    place: Place,
    block: Block,
    bytes: Vec<u8>,
    defined: MemShelf,
    case: Case,
}

/// Adds a name.
fn push_name(alloc: Global, names: &mut Vec<String>, name: &str) -> Result<(), AllocError> {
    names.push(String::from_str(alloc, name)?)?;
    Ok(())
}

/// Puts bytes in their place in a case, or among those that are defined.
fn store(
    alloc: Global,
    case: &mut Case,
    defined: &mut MemShelf,
    block: Block,
    bytes: Vec<u8>,
) -> Result<(), LineFault> {
    match block {
        Block::Nothing => Ok(()),
        Block::Defined(name) => Ok(defined.add(name.as_str(), &bytes)?),
        Block::File(name) => store_file(alloc, case, name.as_str(), &bytes),
        Block::Left(name) => store_left(alloc, case, name.as_str(), &bytes),
        Block::Output => {
            case.expected.output = Some(Bytes::from_vec(bytes));
            Ok(())
        }
        Block::Report => {
            case.expected.report = Some(Bytes::from_vec(bytes));
            Ok(())
        }
    }
}

/// Puts a file on the shelf of a case, to stay as it is.
fn store_file(alloc: Global, case: &mut Case, name: &str, bytes: &[u8]) -> Result<(), LineFault> {
    case.shelf.add(name, bytes)?;
    store_left(alloc, case, name, bytes)
}

/// Expects a file after the command.
fn store_left(alloc: Global, case: &mut Case, name: &str, bytes: &[u8]) -> Result<(), LineFault> {
    case.held.add(name, bytes)?;
    Ok(push_name(alloc, &mut case.names, name)?)
}

/// Adds the words of a line, between single blanks.
fn add_words(alloc: Global, case: &mut Case, line: &str) -> Result<(), LineFault> {
    for word in line.split(' ') {
        push_name(alloc, &mut case.words, word)?;
    }
    Ok(())
}

/// Expects a status, and the words of an ending.
fn expect_ending(alloc: Global, case: &mut Case, line: &str) -> Result<(), LineFault> {
    let (status, words) = cut(line);
    let Ok(status) = u8::try_from(number(status)?) else {
        return Err(LineFault::Number);
    };
    let words = Name::from_string(String::from_str(alloc, words)?);
    case.expected.ending = Some(ExpectedEnding { status, words });
    Ok(())
}

/// Makes one call of the shelf or of a stream fail.
fn add_failure(case: &mut Case, line: &str) -> Result<(), LineFault> {
    let (part, call) = cut(line);
    let call = number(call)?;
    match part {
        "shelf" => Ok(case.shelf.fail_call(call)?),
        "output" => Ok(case.prog.fail_call(call)?),
        "report" => Ok(case.stat.fail_call(call)?),
        _ => Err(LineFault::Word),
    }
}

/// Does what a line of a case says that opens no bytes.
fn add_line(alloc: Global, case: &mut Case, word: &str, rest: &str) -> Result<(), LineFault> {
    match word {
        "words" => add_words(alloc, case, rest),
        "word" => Ok(push_name(alloc, &mut case.words, rest)?),
        "fail" => add_failure(case, rest),
        "ending" => expect_ending(alloc, case, rest),
        "absent" => Ok(push_name(alloc, &mut case.names, rest)?),
        _ => Err(LineFault::Word),
    }
}

/// The bytes that a line opens, if it does.
fn opened(alloc: Global, word: &str, rest: &str) -> Result<Option<Block>, AllocError> {
    Ok(match word {
        "file" => Some(Block::File(String::from_str(alloc, rest)?)),
        "left" => Some(Block::Left(String::from_str(alloc, rest)?)),
        "output" => Some(Block::Output),
        "report" => Some(Block::Report),
        _ => None,
    })
}

impl Reader {
    /// Nothing was read yet.
    pub fn new(alloc: Global) -> Reader {
        Reader {
            alloc,
            place: Place::Between,
            block: Block::Nothing,
            bytes: Vec::new(alloc),
            defined: MemShelf::new(alloc),
            case: Case::new(alloc, String::new(alloc)),
        }
    }

    /// The name of the last case.
    pub fn case_name(&self) -> &str {
        self.case.name.as_str()
    }

    /// Ends the list of bytes that is open, if one is.
    fn close(&mut self) -> Result<(), LineFault> {
        let block = mem::replace(&mut self.block, Block::Nothing);
        let bytes = mem::replace(&mut self.bytes, Vec::new(self.alloc));
        store(self.alloc, &mut self.case, &mut self.defined, block, bytes)
    }

    /// What is told of the case that is open, where one is, as it must not be.
    fn leave(&mut self) -> Told {
        if self.place != Place::Within {
            return Told::Nothing;
        }
        let name = mem::replace(&mut self.case.name, String::new(self.alloc));
        Told::NotEnded(name)
    }

    /// Begins a case.
    fn begin(&mut self, name: &str) -> Result<Told, LineFault> {
        let told = self.leave();
        self.place = Place::Over;
        self.close()?;
        self.case = Case::new(self.alloc, String::from_str(self.alloc, name)?);
        self.place = Place::Within;
        Ok(told)
    }

    /// Begins bytes that later cases can name.
    fn define(&mut self, name: &str) -> Result<Told, LineFault> {
        self.close()?;
        if self.place == Place::Within {
            return Err(LineFault::Inside);
        }
        self.block = Block::Defined(String::from_str(self.alloc, name)?);
        Ok(Told::Nothing)
    }

    /// Performs what was read of the case.
    fn perform(&mut self, passed: Told) -> Result<Told, LineFault> {
        self.close()?;
        match perform(self.alloc, &mut self.case)? {
            Some(difference) => Ok(Told::Failed(difference)),
            None => Ok(passed),
        }
    }

    /// Ends a case.
    fn end(&mut self) -> Result<Told, LineFault> {
        match self.place {
            Place::Between => Err(LineFault::Outside),
            Place::Over => {
                self.place = Place::Between;
                Ok(Told::Nothing)
            }
            Place::Within => {
                self.place = Place::Between;
                self.perform(Told::Passed)
            }
        }
    }

    /// Ends a command of a case, which goes on with a further one.
    fn then(&mut self) -> Result<Told, LineFault> {
        let told = self.perform(Told::Nothing)?;
        if matches!(told, Told::Failed(_)) {
            self.place = Place::Over;
        }
        self.case.go_on(self.alloc);
        Ok(told)
    }

    /// Does what a line within a case says.
    fn within(&mut self, word: &str, rest: &str) -> Result<Told, LineFault> {
        self.close()?;
        match opened(self.alloc, word, rest)? {
            Some(block) => self.block = block,
            None => add_line(self.alloc, &mut self.case, word, rest)?,
        }
        Ok(Told::Nothing)
    }

    /// Does what a line says that lists bytes.
    fn list(&mut self, word: &str, rest: &str) -> Result<Told, LineFault> {
        if matches!(self.block, Block::Nothing) {
            return Err(LineFault::NoBlock);
        }
        list(self.alloc, &mut self.bytes, word, rest, &self.defined)?;
        Ok(Told::Nothing)
    }

    /// Does what a line of a case says.
    fn inside(&mut self, word: &str, rest: &str) -> Result<Told, LineFault> {
        match self.place {
            Place::Between if is_listing(word) => self.list(word, rest),
            Place::Between => Err(LineFault::Outside),
            Place::Over => Ok(Told::Nothing),
            Place::Within if is_listing(word) => self.list(word, rest),
            Place::Within if word == "then" => self.then(),
            Place::Within => self.within(word, rest),
        }
    }

    /// Does what a line says, and passes over the rest of a case that is refused.
    pub fn line(&mut self, line: &str) -> Result<Told, LineFault> {
        let told = self.any_line(line);
        if told.is_err() && self.place == Place::Within {
            self.place = Place::Over;
        }
        told
    }

    fn any_line(&mut self, line: &str) -> Result<Told, LineFault> {
        let (word, rest) = cut(line);
        match word {
            "" => Ok(Told::Nothing),
            "#" => Ok(Told::Nothing),
            "define" => self.define(rest),
            "case" => self.begin(rest),
            "end" => self.end(),
            _ => self.inside(word, rest),
        }
    }

    /// Ends a file.
    pub fn at_end(&mut self) -> Result<Told, LineFault> {
        Ok(self.leave())
    }
}
