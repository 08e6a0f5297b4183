//! The program `pisa`: performs the command that its words name.
#![tactic(auto)]

use pisa_main::perform;
use ss_base::HostSink;
use std::env;
use std::process::ExitCode;

fn main(rt: HostRuntime) -> ExitCode {
    let words = env::args(&rt).and_then(|words| Ok(words.skip(1).collect(rt.alloc())?));
    let mut prog = HostSink::new(rt.stdout());
    let mut stat = HostSink::new(rt.stderr());
    ExitCode::from(perform(rt.alloc(), &rt, words, &mut prog, &mut stat))
}
