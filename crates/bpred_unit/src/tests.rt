ghost use Rattle.std.specs.Prelude.{◌≡◌, ◌≤◌};
ghost use Rattle.bpred_unit.specs.Limits.{IsAllowed};
ghost use Rattle.bpred_unit.specs.Stands.{cells_of};

use crate::{Look, PredConfig, PredKind, Predictor};
use pisa_isa::{Instr, Op};
use ss_base::OutOfMemory;
use std::alloc::Global;
use std::test::Fail;

/// What a predictor is asked, or told of an instruction that was done: its address, its operation with `rs`, and where it
/// led if it was taken.
#[derive(Clone, Copy)]
enum Step {
    Ask(u32, Op, u8),
    Taken(u32, Op, u8, u32),
    NotTaken(u32, Op, u8),
}

/// Every kind of control before it is known and afterwards, with branches that change their minds.
const BEFORE: [Step; 33] = [
    Step::Ask(0x108, Op::Beq, 0),
    Step::Taken(0x108, Op::Beq, 0, 0x200),
    Step::Ask(0x108, Op::Beq, 0),
    Step::Taken(0x108, Op::Beq, 0, 0x200),
    Step::Ask(0x108, Op::Beq, 0),
    Step::NotTaken(0x108, Op::Beq, 0),
    Step::Ask(0x108, Op::Beq, 0),
    Step::NotTaken(0x108, Op::Beq, 0),
    Step::Ask(0x108, Op::Beq, 0),
    Step::Taken(0x108, Op::Beq, 0, 0x200),
    Step::Ask(0x108, Op::Beq, 0),
    Step::Ask(0x218, Op::Bgez, 0),
    Step::NotTaken(0x218, Op::Bgez, 0),
    Step::Ask(0x218, Op::Bgez, 0),
    Step::Ask(0x300, Op::Nop, 0),
    Step::NotTaken(0x300, Op::Nop, 0),
    Step::Ask(0x308, Op::Bc1t, 0),
    Step::Ask(0x310, Op::J, 0),
    Step::Taken(0x310, Op::J, 0, 0x500),
    Step::Ask(0x310, Op::J, 0),
    Step::Ask(0x500, Op::Jr, 5),
    Step::Taken(0x500, Op::Jr, 5, 0x600),
    Step::Ask(0x500, Op::Jr, 5),
    Step::Ask(0x600, Op::Jalr, 0),
    Step::Taken(0x600, Op::Jalr, 0, 0x700),
    Step::Ask(0x600, Op::Jalr, 0),
    Step::Ask(0x700, Op::Jr, 31),
    Step::Taken(0x700, Op::Jr, 31, 0x608),
    Step::Ask(0x700, Op::Jr, 31),
    Step::Ask(0x310, Op::J, 0),
    Step::Ask(0x108, Op::Beq, 0),
    Step::Ask(0x720, Op::Jal, 0),
    Step::Ask(0x728, Op::Jal, 0),
];

/// Returns to what was pushed before the recovery, and the last instruction of memory.
const AFTER: [Step; 8] = [
    Step::Ask(0x700, Op::Jr, 31),
    Step::Ask(0x708, Op::Jr, 31),
    Step::Ask(0x730, Op::Jal, 0),
    Step::Ask(0x710, Op::Jr, 31),
    Step::Ask(0x310, Op::J, 0),
    Step::Ask(0xfffffff8, Op::Nop, 0),
    Step::Ask(0xfffffff8, Op::Jal, 0),
    Step::Ask(0x700, Op::Jr, 31),
];

/// The answers of all look-ups by a predictor of this kind, with a stack of so many cells. An independent model of the
/// rules worked them out, with lists for the tables.
struct Row {
    kind: PredKind,
    ras: u32,
    next: [u32; 30],
    taken: [bool; 30],
    top: [u32; 30],
}

const ROWS: [Row; 15] = [
    Row {
        kind: PredKind::NotTaken,
        ras: 0,
        next: [
            0x110, 0x110, 0x110, 0x110, 0x110, 0x110, 0x220, 0x220, 0x308, 0x310, 0x318, 0x500,
            0x508, 0x600, 0x608, 0x700, 0x708, 0x608, 0x318, 0x110, 0x728, 0x730, 0x608, 0x710,
            0x738, 0x718, 0x318, 0x0, 0x0, 0x608,
        ],
        taken: [
            false, false, false, false, false, false, false, false, false, false, true, true, true,
            true, true, true, true, true, true, false, true, true, true, true, true, true, true,
            false, true, true,
        ],
        top: [
            0, 0, 0, 0, 0, 0, 0, 0, 0, 0, 0, 0, 0, 0, 0, 0, 0, 0, 0, 0, 0, 0, 0, 0, 0, 0, 0, 0, 0,
            0,
        ],
    },
    Row {
        kind: PredKind::NotTaken,
        ras: 1,
        next: [
            0x110, 0x110, 0x110, 0x110, 0x110, 0x110, 0x220, 0x220, 0x308, 0x310, 0x318, 0x500,
            0x508, 0x600, 0x608, 0x700, 0x608, 0x608, 0x318, 0x110, 0x728, 0x730, 0x730, 0x730,
            0x738, 0x738, 0x318, 0x0, 0x0, 0x0,
        ],
        taken: [
            false, false, false, false, false, false, false, false, false, false, true, true, true,
            true, true, true, true, true, true, false, true, true, true, true, true, true, true,
            false, true, true,
        ],
        top: [
            0, 0, 0, 0, 0, 0, 0, 0, 0, 0, 0, 0, 0, 0, 0, 0, 0, 0, 0, 0, 0, 0, 0, 0, 0, 0, 0, 0, 0,
            0,
        ],
    },
    Row {
        kind: PredKind::NotTaken,
        ras: 8,
        next: [
            0x110, 0x110, 0x110, 0x110, 0x110, 0x110, 0x220, 0x220, 0x308, 0x310, 0x318, 0x500,
            0x508, 0x600, 0x608, 0x700, 0x608, 0x608, 0x318, 0x110, 0x728, 0x730, 0x108, 0x0,
            0x738, 0x738, 0x318, 0x0, 0x0, 0x0,
        ],
        taken: [
            false, false, false, false, false, false, false, false, false, false, true, true, true,
            true, true, true, true, true, true, false, true, true, true, true, true, true, true,
            false, true, true,
        ],
        top: [
            1, 1, 1, 1, 1, 1, 1, 1, 1, 1, 1, 1, 1, 1, 2, 3, 2, 1, 1, 1, 2, 3, 0, 7, 0, 7, 7, 7, 0,
            7,
        ],
    },
    Row {
        kind: PredKind::Taken,
        ras: 0,
        next: [
            0x110, 0x200, 0x200, 0x200, 0x200, 0x200, 0x220, 0x220, 0x308, 0x310, 0x318, 0x500,
            0x508, 0x600, 0x608, 0x700, 0x708, 0x608, 0x318, 0x200, 0x728, 0x730, 0x608, 0x710,
            0x738, 0x718, 0x318, 0x0, 0x0, 0x608,
        ],
        taken: [
            true, true, true, true, true, true, true, true, false, false, true, true, true, true,
            true, true, true, true, true, true, true, true, true, true, true, true, true, false,
            true, true,
        ],
        top: [
            0, 0, 0, 0, 0, 0, 0, 0, 0, 0, 0, 0, 0, 0, 0, 0, 0, 0, 0, 0, 0, 0, 0, 0, 0, 0, 0, 0, 0,
            0,
        ],
    },
    Row {
        kind: PredKind::Taken,
        ras: 1,
        next: [
            0x110, 0x200, 0x200, 0x200, 0x200, 0x200, 0x220, 0x220, 0x308, 0x310, 0x318, 0x500,
            0x508, 0x600, 0x608, 0x700, 0x608, 0x608, 0x318, 0x200, 0x728, 0x730, 0x730, 0x730,
            0x738, 0x738, 0x318, 0x0, 0x0, 0x0,
        ],
        taken: [
            true, true, true, true, true, true, true, true, false, false, true, true, true, true,
            true, true, true, true, true, true, true, true, true, true, true, true, true, false,
            true, true,
        ],
        top: [
            0, 0, 0, 0, 0, 0, 0, 0, 0, 0, 0, 0, 0, 0, 0, 0, 0, 0, 0, 0, 0, 0, 0, 0, 0, 0, 0, 0, 0,
            0,
        ],
    },
    Row {
        kind: PredKind::Taken,
        ras: 8,
        next: [
            0x110, 0x200, 0x200, 0x200, 0x200, 0x200, 0x220, 0x220, 0x308, 0x310, 0x318, 0x500,
            0x508, 0x600, 0x608, 0x700, 0x608, 0x608, 0x318, 0x200, 0x728, 0x730, 0x108, 0x0,
            0x738, 0x738, 0x318, 0x0, 0x0, 0x0,
        ],
        taken: [
            true, true, true, true, true, true, true, true, false, false, true, true, true, true,
            true, true, true, true, true, true, true, true, true, true, true, true, true, false,
            true, true,
        ],
        top: [
            1, 1, 1, 1, 1, 1, 1, 1, 1, 1, 1, 1, 1, 1, 2, 3, 2, 1, 1, 1, 2, 3, 0, 7, 0, 7, 7, 7, 0,
            7,
        ],
    },
    Row {
        kind: PredKind::Bimod,
        ras: 0,
        next: [
            0x110, 0x200, 0x200, 0x200, 0x110, 0x200, 0x220, 0x220, 0x308, 0x310, 0x318, 0x500,
            0x508, 0x600, 0x608, 0x700, 0x708, 0x608, 0x318, 0x200, 0x728, 0x730, 0x608, 0x710,
            0x738, 0x718, 0x318, 0x0, 0x0, 0x608,
        ],
        taken: [
            false, true, true, true, false, true, false, false, false, false, true, true, true,
            true, true, true, true, true, true, true, true, true, true, true, true, true, true,
            false, true, true,
        ],
        top: [
            0, 0, 0, 0, 0, 0, 0, 0, 0, 0, 0, 0, 0, 0, 0, 0, 0, 0, 0, 0, 0, 0, 0, 0, 0, 0, 0, 0, 0,
            0,
        ],
    },
    Row {
        kind: PredKind::Bimod,
        ras: 1,
        next: [
            0x110, 0x200, 0x200, 0x200, 0x110, 0x200, 0x220, 0x220, 0x308, 0x310, 0x318, 0x500,
            0x508, 0x600, 0x608, 0x700, 0x608, 0x608, 0x318, 0x200, 0x728, 0x730, 0x730, 0x730,
            0x738, 0x738, 0x318, 0x0, 0x0, 0x0,
        ],
        taken: [
            false, true, true, true, false, true, false, false, false, false, true, true, true,
            true, true, true, true, true, true, true, true, true, true, true, true, true, true,
            false, true, true,
        ],
        top: [
            0, 0, 0, 0, 0, 0, 0, 0, 0, 0, 0, 0, 0, 0, 0, 0, 0, 0, 0, 0, 0, 0, 0, 0, 0, 0, 0, 0, 0,
            0,
        ],
    },
    Row {
        kind: PredKind::Bimod,
        ras: 8,
        next: [
            0x110, 0x200, 0x200, 0x200, 0x110, 0x200, 0x220, 0x220, 0x308, 0x310, 0x318, 0x500,
            0x508, 0x600, 0x608, 0x700, 0x608, 0x608, 0x318, 0x200, 0x728, 0x730, 0x108, 0x0,
            0x738, 0x738, 0x318, 0x0, 0x0, 0x0,
        ],
        taken: [
            false, true, true, true, false, true, false, false, false, false, true, true, true,
            true, true, true, true, true, true, true, true, true, true, true, true, true, true,
            false, true, true,
        ],
        top: [
            1, 1, 1, 1, 1, 1, 1, 1, 1, 1, 1, 1, 1, 1, 2, 3, 2, 1, 1, 1, 2, 3, 0, 7, 0, 7, 7, 7, 0,
            7,
        ],
    },
    Row {
        kind: PredKind::TwoLevel,
        ras: 0,
        next: [
            0x110, 0x110, 0x110, 0x110, 0x200, 0x200, 0x220, 0x220, 0x308, 0x310, 0x318, 0x500,
            0x508, 0x600, 0x608, 0x700, 0x708, 0x608, 0x318, 0x110, 0x728, 0x730, 0x608, 0x710,
            0x738, 0x718, 0x318, 0x0, 0x0, 0x608,
        ],
        taken: [
            false, false, false, false, true, true, false, true, false, false, true, true, true,
            true, true, true, true, true, true, false, true, true, true, true, true, true, true,
            false, true, true,
        ],
        top: [
            0, 0, 0, 0, 0, 0, 0, 0, 0, 0, 0, 0, 0, 0, 0, 0, 0, 0, 0, 0, 0, 0, 0, 0, 0, 0, 0, 0, 0,
            0,
        ],
    },
    Row {
        kind: PredKind::TwoLevel,
        ras: 1,
        next: [
            0x110, 0x110, 0x110, 0x110, 0x200, 0x200, 0x220, 0x220, 0x308, 0x310, 0x318, 0x500,
            0x508, 0x600, 0x608, 0x700, 0x608, 0x608, 0x318, 0x110, 0x728, 0x730, 0x730, 0x730,
            0x738, 0x738, 0x318, 0x0, 0x0, 0x0,
        ],
        taken: [
            false, false, false, false, true, true, false, true, false, false, true, true, true,
            true, true, true, true, true, true, false, true, true, true, true, true, true, true,
            false, true, true,
        ],
        top: [
            0, 0, 0, 0, 0, 0, 0, 0, 0, 0, 0, 0, 0, 0, 0, 0, 0, 0, 0, 0, 0, 0, 0, 0, 0, 0, 0, 0, 0,
            0,
        ],
    },
    Row {
        kind: PredKind::TwoLevel,
        ras: 8,
        next: [
            0x110, 0x110, 0x110, 0x110, 0x200, 0x200, 0x220, 0x220, 0x308, 0x310, 0x318, 0x500,
            0x508, 0x600, 0x608, 0x700, 0x608, 0x608, 0x318, 0x110, 0x728, 0x730, 0x108, 0x0,
            0x738, 0x738, 0x318, 0x0, 0x0, 0x0,
        ],
        taken: [
            false, false, false, false, true, true, false, true, false, false, true, true, true,
            true, true, true, true, true, true, false, true, true, true, true, true, true, true,
            false, true, true,
        ],
        top: [
            1, 1, 1, 1, 1, 1, 1, 1, 1, 1, 1, 1, 1, 1, 2, 3, 2, 1, 1, 1, 2, 3, 0, 7, 0, 7, 7, 7, 0,
            7,
        ],
    },
    Row {
        kind: PredKind::Comb,
        ras: 0,
        next: [
            0x110, 0x200, 0x200, 0x200, 0x200, 0x200, 0x220, 0x220, 0x308, 0x310, 0x318, 0x500,
            0x508, 0x600, 0x608, 0x700, 0x708, 0x608, 0x318, 0x110, 0x728, 0x730, 0x608, 0x710,
            0x738, 0x718, 0x318, 0x0, 0x0, 0x608,
        ],
        taken: [
            false, true, true, true, true, true, false, true, false, false, true, true, true, true,
            true, true, true, true, true, false, true, true, true, true, true, true, true, false,
            true, true,
        ],
        top: [
            0, 0, 0, 0, 0, 0, 0, 0, 0, 0, 0, 0, 0, 0, 0, 0, 0, 0, 0, 0, 0, 0, 0, 0, 0, 0, 0, 0, 0,
            0,
        ],
    },
    Row {
        kind: PredKind::Comb,
        ras: 1,
        next: [
            0x110, 0x200, 0x200, 0x200, 0x200, 0x200, 0x220, 0x220, 0x308, 0x310, 0x318, 0x500,
            0x508, 0x600, 0x608, 0x700, 0x608, 0x608, 0x318, 0x110, 0x728, 0x730, 0x730, 0x730,
            0x738, 0x738, 0x318, 0x0, 0x0, 0x0,
        ],
        taken: [
            false, true, true, true, true, true, false, true, false, false, true, true, true, true,
            true, true, true, true, true, false, true, true, true, true, true, true, true, false,
            true, true,
        ],
        top: [
            0, 0, 0, 0, 0, 0, 0, 0, 0, 0, 0, 0, 0, 0, 0, 0, 0, 0, 0, 0, 0, 0, 0, 0, 0, 0, 0, 0, 0,
            0,
        ],
    },
    Row {
        kind: PredKind::Comb,
        ras: 8,
        next: [
            0x110, 0x200, 0x200, 0x200, 0x200, 0x200, 0x220, 0x220, 0x308, 0x310, 0x318, 0x500,
            0x508, 0x600, 0x608, 0x700, 0x608, 0x608, 0x318, 0x110, 0x728, 0x730, 0x108, 0x0,
            0x738, 0x738, 0x318, 0x0, 0x0, 0x0,
        ],
        taken: [
            false, true, true, true, true, true, false, true, false, false, true, true, true, true,
            true, true, true, true, true, false, true, true, true, true, true, true, true, false,
            true, true,
        ],
        top: [
            1, 1, 1, 1, 1, 1, 1, 1, 1, 1, 1, 1, 1, 1, 2, 3, 2, 1, 1, 1, 2, 3, 0, 7, 0, 7, 7, 7, 0,
            7,
        ],
    },
];

/// An instruction with this register `rs`.
fn instr(op: Op, rs: u8) -> Instr {
    Instr {
        op,
        rs,
        rt: 0,
        rd: 0,
        shamt: 0,
        imm: 0,
        target: 0,
    }
}

/// Whether this is the answer of number `k` in a row.
fn is_answer(row: &Row, k: usize, look: &Look) -> bool {
    k < 30 && look.next == row.next[k] && look.taken == row.taken[k] && look.top == row.top[k]
}

/// Whether a predictor answers these steps as the row says, from its answer of number `first`.
fn plays(predictor: &mut Predictor, steps: &[Step], row: &Row, first: usize) -> bool
    ensures { cells_of predictor.new ≡ cells_of predictor.old }
{
    let mut k = first;
    for step in steps {
        match *step {
            Step::Ask(pc, op, rs) => {
                let look = predictor.lookup(pc, &instr(op, rs));
                if !is_answer(row, k, &look) {
                    return false;
                }
                k = k.saturating_add(1);
            }
            Step::Taken(pc, op, rs, next) => predictor.update(pc, &instr(op, rs), true, next),
            Step::NotTaken(pc, op, rs) => {
                predictor.update(pc, &instr(op, rs), false, pc.wrapping_add(8))
            }
        }
    }
    true
}

/// A configuration of small tables.
fn config(kind: PredKind, ras: u32) -> PredConfig
    requires { ras ≤ 1024 }
    ensures { IsAllowed result }
{
    PredConfig {
        kind,
        bimod: 4,
        l1: 1,
        l2: 4,
        width: 2,
        xor: true,
        meta: 2,
        btb_sets: 2,
        btb_ways: 2,
        ras,
    }
}

/// Whether a new predictor answers as the row says: first a call is looked up, and after all other steps the top that it
/// left is put back.
fn agrees(alloc: Global, row: &Row) -> Result<bool, OutOfMemory> {
    if row.ras > 1024 {
        return Ok(false);
    }
    let mut predictor = Predictor::new(alloc, &config(row.kind, row.ras))?;
    let call = predictor.lookup(0x100, &instr(Op::Jal, 0));
    let before = plays(&mut predictor, &BEFORE, row, 0);
    predictor.recover(call.top);
    Ok(call.next == 0x108 && before && plays(&mut predictor, &AFTER, row, 22))
}

/// Whether every row holds.
fn rows_agree(alloc: Global) -> Result<bool, OutOfMemory> {
    for row in &ROWS {
        if !agrees(alloc, row)? {
            return Ok(false);
        }
    }
    Ok(true)
}

#[test]
fn every_kind_answers_by_the_rules(rt: HostRuntime) -> Result<(), Fail> {
    let agree = rows_agree(rt.alloc())?;
    assert!(rt; agree);
    Ok(())
}

/// Where returns go after 16 and then 24 were pushed: 16 after a recovery to the top of the first push, and 24 after one
/// to that of the second, whose cell is still there.
fn returns_after_recoveries(alloc: Global) -> Result<(u32, u32), OutOfMemory> {
    let mut predictor = Predictor::new(alloc, &config(PredKind::NotTaken, 8))?;
    let first = predictor.lookup(8, &instr(Op::Jal, 0));
    let second = predictor.lookup(16, &instr(Op::Jalr, 0));
    predictor.recover(first.top);
    let older = predictor.lookup(0x40, &instr(Op::Jr, 31));
    predictor.recover(second.top);
    let newer = predictor.lookup(0x48, &instr(Op::Jr, 31));
    Ok((older.next, newer.next))
}

#[test]
fn recoveries_leave_cells(rt: HostRuntime) -> Result<(), Fail> {
    let returns = returns_after_recoveries(rt.alloc())?;
    assert!(rt; returns == (16, 24));
    Ok(())
}
