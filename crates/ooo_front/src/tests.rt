ghost use Rattle.std.specs.Prelude.{◌≡◌, ◌+◌, ◌≤◌, IfSome};
ghost use Rattle.mem_hier.specs.Stands.{references_of, last_cycle_of};
ghost use Rattle.ooo_front.specs.Stands.{MayFollow, Refers};

mod cases;

use crate::row::looked_up;
use crate::{FetchRow, Front};
use Step::{Cycle, Redirect};
use bpred_unit::{PredConfig, PredKind, Predictor};
use cases::{BARE, CASES, Case, PROGRAM, Step, WORDS};
use ecoff_load::Text;
use mem_hier::Hier;
use ss_base::{Bytes, OutOfMemory};
use std::alloc::Global;
use std::test::Fail;

/// A branch over four instructions: ADDIU $9,$0,1; BNE $9,$0,0x00400030; LW $10,0($29); SW $10,4($29); NOP; NOP;
/// ADDIU $2,$0,1; ADDIU $4,$0,0; SYSCALL.
const BRANCH: [u8; 72] = [
    0x43, 0x0, 0x0, 0x0, 0x1, 0x0, 0x9, 0x0, 0x6, 0x0, 0x0, 0x0, 0x8, 0x0, 0x0, 0x9, 0x28, 0x0,
    0x0, 0x0, 0x0, 0x0, 0xa, 0x1d, 0x34, 0x0, 0x0, 0x0, 0x4, 0x0, 0xa, 0x1d, 0x0, 0x0, 0x0, 0x0,
    0x0, 0x0, 0x0, 0x0, 0x0, 0x0, 0x0, 0x0, 0x0, 0x0, 0x0, 0x0, 0x43, 0x0, 0x0, 0x0, 0x1, 0x0, 0x2,
    0x0, 0x43, 0x0, 0x0, 0x0, 0x0, 0x0, 0x4, 0x0, 0xa0, 0x0, 0x0, 0x0, 0x0, 0x0, 0x0, 0x0,
];

/// Whether the row has the words of the program at its address, 0 and 0 outside of it.
fn has_words(row: &FetchRow) -> bool {
    for (pc, a, b) in &WORDS {
        if *pc == row.pc {
            return *a == row.a && *b == row.b;
        }
    }
    row.a == 0 && row.b == 0
}

fn has(list: &[u32], k: usize, number: u32) -> bool {
    k < list.len() && list[k] == number
}

fn has_cycle(list: &[u64], k: usize, cycle: u64) -> bool {
    k < list.len() && list[k] == cycle
}

impl Case {
    /// Whether this is the row of number `k`.
    fn is_row(&self, k: usize, row: &FetchRow) -> bool {
        let address = has(self.pc, k, row.pc) && has(self.next, k, row.next);
        let cycles = has_cycle(self.fetched, k, row.fetched)
            && has_cycle(self.queued, k, row.queued);
        row.row == k as u64 && address && has(self.top, k, row.top) && cycles && has_words(row)
    }

    /// Whether these are the rows from number `first` on.
    fn are_rows(&self, first: usize, rows: &[FetchRow]) -> bool {
        for (k, row) in rows.iter().enumerate() {
            if !self.is_row(first.saturating_add(k), row) {
                return false;
            }
        }
        true
    }
}

/// Where a walk stands: the least cycle that may come, the number of the oldest row that waits, and that of the next one.
#[derive(Clone, Copy)]
struct Walk {
    cycle: u64,
    oldest: usize,
    next: usize,
}

/// The number of the oldest row, which leaves, where it is queued before the cycle.
fn take(front: &mut Front, cycle: u64) -> Option<u64>
    ensures width { front.new.width ≡ front.old.width }
    ensures row { front.new.row ≡ front.old.row }
    ensures cycle { front.new.cycle ≡ front.old.cycle }
{
    if front.head(cycle).is_none() {
        return None;
    }
    Some(front.pop().row)
}

/// Whether so many rows leave in the cycle, of up to two, and begin with this number.
fn takes(front: &mut Front, cycle: u64, count: usize, first: usize) -> bool
    ensures width { front.new.width ≡ front.old.width }
    ensures row { front.new.row ≡ front.old.row }
    ensures cycle { front.new.cycle ≡ front.old.cycle }
{
    for k in 0..count {
        if take(front, cycle) != Some(first.saturating_add(k) as u64) {
            return false;
        }
    }
    count == 2 || front.head(cycle).is_none()
}

/// Whether the cycle fetches so many rows, and as the case says from this number on.
fn fetches(
    front: &mut Front,
    text: &Text,
    hier: &mut Hier,
    pred: &mut Predictor,
    case: &Case,
    cycle: u64,
    count: usize,
    first: usize,
) -> bool
    requires { MayFollow front.old hier.old cycle }
    ensures width { front.new.width ≡ front.old.width }
    ensures row { front.new.row ≤ front.old.row + front.old.width }
    ensures cycle { front.new.cycle ≡ cycle + 1 }
    ensures hier { Refers hier.old hier.new front.old.width cycle }
{
    let rows = front.fetch_cycle(cycle, text, hier, pred);
    rows.len() == count && case.are_rows(first, rows.as_slice())
}

/// Where the walk stands after a step that goes as it says.
fn play(
    front: &mut Front,
    text: &Text,
    hier: &mut Hier,
    pred: &mut Predictor,
    case: &Case,
    step: Step,
    walk: Walk,
) -> Option<Walk>
    requires width { front.old.width ≤ 32 }
    requires cycle { (front.old.cycle ≤ walk.cycle) × (last_cycle_of hier.old ≤ walk.cycle) }
    requires counts { (front.old.row ≤ 1000) × (references_of hier.old ≤ 1000) }
    ensures width { front.new.width ≡ front.old.width }
    ensures cycle { IfSome result (λ w. (front.new.cycle ≤ w.cycle) × (last_cycle_of hier.new ≤ w.cycle)) }
    ensures counts { (front.new.row ≤ front.old.row + 32) × (references_of hier.new ≤ references_of hier.old + 32) }
{
    match step {
        Cycle(cycle, taken, count) => {
            if cycle < walk.cycle || cycle > 100 || !takes(front, cycle, taken, walk.oldest) {
                return None;
            }
            if !fetches(front, text, hier, pred, case, cycle, count, walk.next) {
                return None;
            }
            Some(Walk {
                cycle: cycle + 1,
                oldest: walk.oldest.saturating_add(taken),
                next: walk.next.saturating_add(count),
            })
        }
        Redirect(pc, earliest, dropped) => {
            if front.redirect(pc, earliest) != dropped {
                return None;
            }
            Some(Walk {
                oldest: walk.next,
                ..walk
            })
        }
    }
}

/// Whether a new front goes through the case's steps as it says.
fn plays(front: &mut Front, text: &Text, hier: &mut Hier, pred: &mut Predictor, case: &Case) -> bool
    requires front { (front.old.width ≤ 32) × (front.old.row ≡ 0) × (front.old.cycle ≡ 0) }
    requires hier { (references_of hier.old ≡ 0) × (last_cycle_of hier.old ≡ 0) }
{
    let mut walk = Walk {
        cycle: 0,
        oldest: 0,
        next: 0,
    };
    for i in 0..20 {
        match play(front, text, hier, pred, case, case.steps[i], walk) {
            Some(further) => walk = further,
            None => return false,
        }
    }
    true
}

/// A predictor that was told two taken transfers, the second of which leads to the address behind it.
fn predictor(alloc: Global, kind: PredKind) -> Result<Predictor, OutOfMemory> {
    let config = PredConfig {
        kind,
        bimod: 1,
        l1: 1,
        l2: 1,
        width: 1,
        xor: false,
        meta: 1,
        btb_sets: 4,
        btb_ways: 2,
        ras: 8,
    };
    let mut pred = Predictor::new(alloc, &config)?;
    pred.update(0x400020, &looked_up(5, 0xfff7), true, 0x400000);
    pred.update(0x400028, &looked_up(1, 0x10000c), true, 0x400030);
    Ok(pred)
}

fn text(alloc: Global, bytes: &[u8]) -> Result<Text, OutOfMemory> {
    let bytes = Bytes::from_vec(Vec::from_slice(alloc, bytes)?);
    Ok(Text {
        start: 0x400000,
        big: false,
        bytes,
    })
}

/// Whether the case goes as it says.
fn agrees(alloc: Global, text: &Text, case: &Case) -> Result<bool, OutOfMemory> {
    if !case.hier.is_allowed() || case.width > 32 {
        return Ok(false);
    }
    let mut hier = Hier::new(alloc, &case.hier)?;
    let mut pred = predictor(alloc, PredKind::Taken)?;
    let mut front = Front::new(alloc, case.ifq, case.width, 0x400000)?;
    Ok(plays(&mut front, text, &mut hier, &mut pred, case))
}

/// Whether every case goes as it says.
fn cases_agree(alloc: Global) -> Result<bool, OutOfMemory> {
    let text = text(alloc, &PROGRAM)?;
    for case in &CASES {
        if !agrees(alloc, &text, case)? {
            return Ok(false);
        }
    }
    Ok(true)
}

// The values come from a model of the rules in another language.
#[test]
fn every_width_fetches_as_an_independent_model(rt: HostRuntime) -> Result<(), Fail> {
    let agree = cases_agree(rt.alloc())?;
    assert!(rt; agree);
    Ok(())
}

/// A row of the branch's program that is queued at once.
fn row(row: u64, pc: u32, a: u32, b: u32, cycle: u64) -> FetchRow {
    FetchRow {
        row,
        pc,
        a,
        b,
        next: pc.wrapping_add(8),
        top: 0,
        fetched: cycle,
        queued: cycle,
    }
}

/// The four rows that are fetched before the branch is done.
fn before() -> [FetchRow; 4] {
    [
        row(0, 0x400000, 0x43, 0x90001, 0),
        row(1, 0x400008, 0x6, 0x9000008, 0),
        row(2, 0x400010, 0x28, 0x1d0a0000, 0),
        row(3, 0x400018, 0x34, 0x1d0a0004, 0),
    ]
}

/// The four rows where the branch leads.
fn behind() -> [FetchRow; 4] {
    [
        row(4, 0x400030, 0x43, 0x20001, 7),
        row(5, 0x400038, 0x43, 0x40000, 7),
        row(6, 0x400040, 0xa0, 0, 7),
        row(7, 0x400048, 0, 0, 7),
    ]
}

fn are_same(rows: &[FetchRow], want: &[FetchRow; 4]) -> bool {
    rows == want.as_slice()
}

/// Whether four rows fill the queue, none is fetched then, and after a redirection four more are fetched, in the
/// earliest cycle.
fn fills_and_turns(front: &mut Front, text: &Text, hier: &mut Hier, pred: &mut Predictor) -> bool
    requires front { (front.old.width ≤ 32) × (front.old.row ≡ 0) × (front.old.cycle ≡ 0) }
    requires hier { (references_of hier.old ≡ 0) × (last_cycle_of hier.old ≡ 0) }
{
    let four = front.fetch_cycle(0, text, hier, pred);
    let full = front.fetch_cycle(1, text, hier, pred);
    let none = front.head(0).is_none();
    let first = front.head(1) == Some(&before()[0]);
    let dropped = front.redirect(0x400030, 7);
    let early = front.fetch_cycle(6, text, hier, pred);
    let last = front.fetch_cycle(7, text, hier, pred);
    let fetched = are_same(four.as_slice(), &before()) && are_same(last.as_slice(), &behind());
    fetched && full.is_empty() && none && first && dropped == 4 && early.is_empty()
}

/// Whether a front of width 4 and a queue of 4 does so over the branch's program, with no cache and no branch taken.
fn branch_agrees(alloc: Global) -> Result<bool, OutOfMemory> {
    if !BARE.is_allowed() {
        return Ok(false);
    }
    let text = text(alloc, &BRANCH)?;
    let mut hier = Hier::new(alloc, &BARE)?;
    let mut pred = predictor(alloc, PredKind::NotTaken)?;
    let mut front = Front::new(alloc, 4, 4, 0x400000)?;
    Ok(fills_and_turns(&mut front, &text, &mut hier, &mut pred))
}

#[test]
fn a_full_queue_waits_and_a_redirected_front_goes_on(rt: HostRuntime) -> Result<(), Fail> {
    let agree = branch_agrees(rt.alloc())?;
    assert!(rt; agree);
    Ok(())
}

/// How many rows outside of text a front of width 32 and a queue of 64 fetches in each of three cycles.
fn widest(alloc: Global) -> Result<(usize, usize, usize), OutOfMemory> {
    if !BARE.is_allowed() {
        return Ok((0, 0, 0));
    }
    let text = text(alloc, &BRANCH)?;
    let mut hier = Hier::new(alloc, &BARE)?;
    let mut pred = predictor(alloc, PredKind::NotTaken)?;
    let mut front = Front::new(alloc, 64, 32, 0)?;
    let first = front.fetch_cycle(0, &text, &mut hier, &mut pred).len();
    let second = front.fetch_cycle(1, &text, &mut hier, &mut pred).len();
    let third = front.fetch_cycle(2, &text, &mut hier, &mut pred).len();
    Ok((first, second, third))
}

#[test]
fn the_widest_front_fetches_32_rows(rt: HostRuntime) -> Result<(), Fail> {
    let fetched = widest(rt.alloc())?;
    assert!(rt; fetched == (32, 32, 0));
    Ok(())
}
