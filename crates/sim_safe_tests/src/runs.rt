//! Runs and recordings under an observer that takes no memory.
ghost use Rattle.std.specs.Prelude.{◌≡◌};
ghost use Rattle.event_trace.specs.Recorder.{next_count};

use crate::programs::{ADDIU, LUI, R2_1, R2_5, R4_7, SYSCALL, TEXT, Words, start};
use event_trace::{Recorder, Trace, World};
use pisa_step::{Cause, Machine};
use sim_safe::{CommitRecord, Observer, RecordEnd, RunEnd};
use std::alloc::Global;

/// How many instructions it was shown, and where the last of them stands.
#[derive(Clone, Copy, Debug, PartialEq, Eq)]
struct Shown {
    count: u64,
    last: u32,
}

impl Observer for Shown {
    ghost use Rattle.sim_safe.specs.declared.observer.Meaning.TheVariants as meaning;

    type Fault = ();

    ghost took = { λ a h b. Unit {0} };

    ghost cut = { λ a h b. Unit {0} };

    ghost faults = { λ o. (0, 0) };

    ghost means = { λ f. meaning.Memory };

    ghost takes_no_memory = { λ o. Unit {0} };

    ghost took_none = { λ o. tt };

    fn saw(&mut self, r: &CommitRecord, _trace: &Trace) -> Result<(), ()> {
        self.count = self.count.saturating_add(1);
        self.last = r.pc;
        Ok(())
    }
}

const NOTHING: Shown = Shown { count: 0, last: 0 };

/// A call without a trace: ADDIU $2,$0,1; ADDIU $4,$0,7; SYSCALL; a word that codes nothing.
const EXITS: Words = [ADDIU, R2_1, ADDIU, R4_7, SYSCALL, 0, 0xff, 0];

/// The same with 5 in register 2, which is no exit.
const CALLS: Words = [ADDIU, R2_5, ADDIU, R4_7, SYSCALL, 0, 0xff, 0];

/// How a run of so many steps without a trace ends, and what it shows.
fn run(alloc: Global, words: Words, n: u32) -> Option<(RunEnd, Shown)> {
    let mut arch = start(alloc, false, words)?;
    if arch.icnt() != 0 {
        return None;
    }
    let trace = Trace::absent(alloc);
    let mut shown = NOTHING;
    match arch.run(&trace, u64::from(n), &mut shown) {
        Ok(end) => Some((end, shown)),
        Err(_) => None,
    }
}

/// Whether runs of these programs of so many steps end so, after so many instructions, the last of
/// which stands there.
fn runs(alloc: Global, rows: &[(Words, u32, RunEnd, u64, u32)]) -> bool {
    for (words, n, end, count, last) in rows {
        let shown = Shown {
            count: *count,
            last: *last,
        };
        if run(alloc, *words, *n) != Some((*end, shown)) {
            return false;
        }
    }
    true
}

#[test]
fn runs_end_at_their_limit_or_where_they_stop(rt: HostRuntime) {
    let exited = RunEnd::Stop(Cause::Exited { code: 7 });
    let rows = [
        (EXITS, 0, RunEnd::Limit, 0, 0),
        (EXITS, 2, RunEnd::Limit, 2, TEXT + 8),
        (EXITS, 3, exited, 3, TEXT + 16),
        (EXITS, 9, exited, 3, TEXT + 16),
        (CALLS, 2, RunEnd::Limit, 2, TEXT + 8),
        (
            CALLS,
            3,
            RunEnd::Stop(Cause::TraceEnd { used: 0 }),
            2,
            TEXT + 8,
        ),
    ];
    assert!(rt; runs(rt.alloc(), &rows));
}

/// A world without input and files, whose break is 0x10010000.
fn recorder(alloc: Global) -> Recorder
    ensures { next_count 0 result.trace.records ≡ 0 }
{
    let world = World::new(alloc, Vec::new(alloc), Vec::new(alloc), 0x1001_0000);
    Recorder::new(alloc, world, false)
}

/// How a recording of so many steps ends, what it shows, and what registers 2 and 7 hold after it.
fn recording(alloc: Global, words: Words, n: u32) -> Option<(RecordEnd, Shown, u32, u32)> {
    let mut arch = start(alloc, false, words)?;
    if arch.icnt() != 0 {
        return None;
    }
    let mut recorder = recorder(alloc);
    let mut shown = NOTHING;
    match arch.record(alloc, &mut recorder, u64::from(n), &mut shown) {
        Ok(end) => Some((end, shown, arch.reg(2), arch.reg(7))),
        Err(_) => None,
    }
}

/// ADDIU $2,$0,17; LUI $4,0x1001; SYSCALL, which sets the break; SYSCALL, whose number is no call's.
const BREAKS: Words = [ADDIU, 0x0002_0011, LUI, 0x0004_1001, SYSCALL, 0, SYSCALL, 0];

#[test]
fn recordings_answer_their_calls(rt: HostRuntime) {
    let shown = |count: u64, last: u32| Shown { count, last };
    let limit = RecordEnd::Run(RunEnd::Limit);
    let bad_fetch = RecordEnd::Run(RunEnd::Stop(Cause::BadFetch));
    let agree = recording(rt.alloc(), BREAKS, 0) == Some((limit, shown(0, 0), 0, 0))
        && recording(rt.alloc(), BREAKS, 3) == Some((limit, shown(3, TEXT + 16), 0x1001_0000, 0))
        && recording(rt.alloc(), BREAKS, 4) == Some((limit, shown(4, TEXT + 24), 22, 1))
        && recording(rt.alloc(), BREAKS, 5) == Some((bad_fetch, shown(4, TEXT + 24), 22, 1));
    assert!(rt; agree);
}
