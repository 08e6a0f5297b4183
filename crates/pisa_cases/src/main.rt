//! Whole commands as cases in text files (`docs/cases.md`).
//!
//! Each word names a file of cases. Each case is run over files and streams in memory, each one that
//! fails has a line, and the last line counts them. The status is 0 where there are cases and all pass.
#![tactic(auto)]

mod assembling;
mod bytes;
mod case;
mod ending;
mod fault;
mod reader;
mod tally;

use crate::fault::LineFault;
use crate::reader::{Reader, Told};
use crate::tally::Tally;
use std::alloc::Global;
use std::process::ExitCode;
use std::{env, fs, io};

/// Prints a line where a case failed or was refused.
fn tell(
    rt: &impl Print,
    file: &str,
    number: usize,
    case: &str,
    told: &Result<Told, LineFault>,
) -> io::Result<()> {
    match told {
        Ok(Told::Failed(difference)) => println!(rt; "{file}:{number}: {case}: {difference}"),
        Ok(Told::NotEnded(name)) => {
            let name = name.as_str();
            println!(rt; "{file}:{number}: {name}: the case has no end")
        }
        Err(LineFault::Outside) => println!(rt; "{file}:{number}: {}", LineFault::Outside),
        Err(fault) => println!(rt; "{file}:{number}: {case}: {fault}"),
        Ok(Told::Nothing) | Ok(Told::Passed) => Ok(()),
    }
}

/// Runs the cases of a text.
fn run_text(
    rt: &impl Print,
    alloc: Global,
    file: &str,
    text: &str,
    tally: &mut Tally,
) -> io::Result<()> {
    let mut reader = Reader::new(alloc);
    let mut last = 0;
    for (index, line) in text.lines().enumerate() {
        let told = reader.line(line);
        tally.count(&told);
        tell(rt, file, index.saturating_add(1), reader.case_name(), &told)?;
        last = index;
    }
    let told = reader.at_end();
    tally.count(&told);
    tell(rt, file, last.saturating_add(1), reader.case_name(), &told)
}

fn main(rt: HostRuntime) -> io::Result<ExitCode> {
    let mut tally = Tally::default();
    for file in env::args(&rt)?.skip(1) {
        let text = fs::read_to_string(&rt, file.as_str())?;
        run_text(&rt, rt.alloc(), file.as_str(), text.as_str(), &mut tally)?;
    }
    let Tally { cases, failed } = tally;
    println!(rt; "{cases} cases, {failed} failed")?;
    Ok(if tally.is_good() {
        ExitCode::SUCCESS
    } else {
        ExitCode::FAILURE
    })
}
