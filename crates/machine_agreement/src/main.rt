//! Compares sim-outorder's machine with the plain program of the table: it runs a hundred made-up programs under a dozen
//! configurations on both, each to its end, and prints for each configuration how many agree, which is where both show the
//! same events in every cycle, in the same order, and end alike. The status is 1 where any disagrees.
#![tactic(auto)]

mod configs;
mod pairs;
mod programs;

use configs::{Setup, setups};
use std::alloc::Global;
use std::io;
use std::process::ExitCode;

/// How many programs there are: ten shapes, each from ten seeds.
const PROGRAMS: u32 = 100;

/// How many programs both machines run alike under a configuration.
fn alike(alloc: Global, setup: &Setup<'_>) -> u32 {
    let mut count = 0u32;
    for k in 0..PROGRAMS {
        let Some(source) = programs::program(alloc, k % 10, k / 10) else {
            return count;
        };
        if pairs::is_alike(alloc, setup, source.as_slice()) {
            count = count.saturating_add(1);
        }
    }
    count
}

fn main(rt: HostRuntime) -> io::Result<ExitCode> {
    let mut all = true;
    for setup in &setups() {
        let count = alike(rt.alloc(), setup);
        let name = setup.name;
        println!(rt; "{name}: {count} of {PROGRAMS}")?;
        all = all && count == PROGRAMS;
    }
    if all {
        Ok(ExitCode::SUCCESS)
    } else {
        Ok(ExitCode::FAILURE)
    }
}
