//! A watch that notes rows is shown events.
use crate::{Watch, show, show_commit};
use arrayvec::ArrayVec;
use event_trace::Trace;
use ooo_table::{Event, Mark};
use pisa_isa::{Instr, Op};
use sim_safe::CommitRecord;
use std::alloc::Global;

/// Notes the rows of events as digits, and the digit 9 for a record. It fails at the call with this
/// number, the first of which is 1, and notes nothing then.
#[derive(Clone, Copy, Debug, PartialEq, Eq)]
struct Notes {
    digits: u64,
    calls: u64,
    failing: u64,
}

impl Notes {
    fn note(&mut self, digit: u64) -> Result<(), ()> {
        self.calls = self.calls.saturating_add(1);
        if self.calls == self.failing {
            return Err(());
        }
        self.digits = self.digits.wrapping_mul(10).wrapping_add(digit);
        Ok(())
    }
}

impl Watch for Notes {
    ghost use Rattle.sim_safe.specs.declared.observer.Meaning.TheVariants as meaning;

    type Fault = ();

    ghost took = { λ a h b. Unit {0} };

    ghost cut = { λ a h b. Unit {0} };

    ghost faults = { λ o. (0, 0) };

    ghost means = { λ f. meaning.Memory };

    ghost took_none = { λ o. tt };

    fn event(&mut self, e: &Event) -> Result<(), ()> {
        self.note(e.row)
    }

    fn commit(&mut self, _r: &CommitRecord, _trace: &Trace) -> Result<(), ()> {
        self.note(9)
    }
}

/// The record of a NOP.
fn did() -> CommitRecord {
    CommitRecord {
        number: 0,
        pc: 0x0040_0000,
        instr: Instr {
            op: Op::Nop,
            rs: 0,
            rt: 0,
            rd: 0,
            shamt: 0,
            imm: 0,
            target: 0,
        },
        next: 0x0040_0008,
        taken: false,
        regs: ArrayVec::new(),
        hi: None,
        lo: None,
        mem: None,
        access: None,
        call: None,
    }
}

/// Whether a watch that fails at this call has noted so much after three events and a commit.
fn has_noted(alloc: Global, failing: u64, digits: u64) -> bool {
    let mut watch = Notes {
        digits: 0,
        calls: 0,
        failing,
    };
    let event = |row| Event {
        cycle: 7,
        row,
        mark: Mark::Issued,
    };
    let trace = Trace::absent(alloc);
    let shown = show(&[event(3), event(5), event(6)], &mut watch);
    let ended = match shown {
        Ok(()) => show_commit(7, 4, &did(), &trace, &mut watch),
        Err(()) => Err(()),
    };
    ended.is_ok() == (failing == 0) && watch.digits == digits
}

#[test]
fn a_watch_is_shown_all_in_order_up_to_its_fault(rt: HostRuntime) {
    let rows = [(0, 35_649), (1, 0), (2, 3), (3, 35), (4, 356), (5, 3_564)];
    let alloc = rt.alloc();
    let agree = rows
        .iter()
        .all(|(failing, digits)| has_noted(alloc, *failing, *digits));
    assert!(rt; agree);
}
