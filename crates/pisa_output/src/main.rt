//! The call that `pisa` makes, run a second time: its stored run names the standard output's device as
//! commit file, puts out bytes, and stops at its limit, so that it tells a working program from an idle
//! one, a wrong stream, lost words and a wrong status.
#![tactic(auto)]

use pisa_main::perform;
use ss_base::HostSink;
use std::env;
use std::process::ExitCode;

fn main(rt: HostRuntime) -> ExitCode {
    let words = env::args(&rt).and_then(|words| Ok(words.skip(1).collect(rt.alloc())?));
    let mut prog = HostSink::new(rt.stdout());
    let mut stat = HostSink::new(rt.stderr());
    ExitCode::from(perform(rt.alloc(), &rt, words, &mut prog, &mut stat))
}
