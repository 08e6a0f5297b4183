//! Each call that can want memory once, over memory.
use crate::{Answer, Refusal, judge_object, judge_trace, refuse, refuse_long, report_run};
use journal::Borrowed;
use sim_opts::{WordFault, WordWhy};
use sim_safe::{RunEnd, Statistics};
use ss_base::{MemShelf, MemSink};
use std::alloc::Global;
use std::test::Fail;

/// A trace of no record, in version 2 and little-endian.
const TRACE: [u8; 16] = [80, 69, 88, 84, 48, 48, 48, 50, 0, 0, 0, 0, 0, 0, 0, 0];

/// Refuses words, an object of no bytes and a file that is too long, and reports a run that ended at its
/// budget; tells whether the second stream has their words, and the first one nothing.
fn answers_are_told(alloc: Global) -> Result<bool, Fail> {
    let mut shelf = MemShelf::new(alloc);
    let mut prog = MemSink::new(alloc);
    let mut stat = MemSink::new(alloc);
    let mut outside = Borrowed {
        shelf: &mut shelf,
        prog: &mut prog,
        stat: &mut stat,
    };
    let extra = Refusal::from(WordFault::Bad {
        at: 4,
        why: WordWhy::Extra,
    });
    let words = refuse(alloc, extra, &mut outside);
    let refused = match judge_object(alloc, &[]) {
        Ok(_) => false,
        Err(refusal) => matches!(
            refuse(alloc, refusal, &mut outside),
            Ok(Answer::Object { at: 0, .. })
        ),
    };
    let long = refuse_long(alloc, "big", &mut outside);
    let run = report_run(
        alloc,
        RunEnd::Limit,
        5,
        &Statistics::none(),
        0,
        0,
        &mut outside,
    );
    Ok(
        refused
            && matches!(
                &words,
                Ok(Answer::Words {
                    at: 4,
                    why: WordWhy::Extra
                })
            )
            && matches!(&long, Ok(Answer::TooLong { name }) if name.as_str() == "big")
            && matches!(&run, Ok(Answer::Budget))
            && stat.bytes().starts_with(
                b"pisa: words 4 Extra\npisa: object 0 Short\npisa: too-long big\nsim_skipped 5\n".as_slice(),
            )
            && prog.bytes().is_empty(),
    )
}

#[test]
fn refusals_and_runs_are_told(rt: HostRuntime) -> Result<(), Fail> {
    assert!(rt; answers_are_told(rt.alloc())?);
    Ok(())
}

#[test]
fn a_trace_is_judged(rt: HostRuntime) -> Result<(), Fail> {
    assert!(rt; judge_trace(rt.alloc(), &TRACE, false).is_ok());
    Ok(())
}
