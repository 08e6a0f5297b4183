//! Views of a started program, against values that were worked out by hand.
ghost use Rattle.std.specs.Prelude.{◌≡◌, ◌≢◌, ◌+◌, ◌<◌, ◌≤◌, ◌^◌, ◌↔◌, IsTrue, length};
ghost use Rattle.std.specs.Option.{ForSome};
ghost use Rattle.spec_state.specs.Overlay.{WritesInBlock};
ghost use Rattle.spec_state.specs.View.{applied_in};

use crate::{Overlay, SpecView};
use ecoff_load::{Image, Kind, Part, Parts, Text};
use pisa_isa::{Instr, Op};
use pisa_step::{Changes, Machine, TextRange, effect};
use sim_safe::Arch;
use ss_base::Bytes;
use std::alloc::Global;

/// Where the instructions stand.
const PC: u32 = 0x0040_0000;

/// Where the program's bytes stand.
const DATA: u32 = 0x1000_0000;

/// The program's bytes.
const BYTES: [u8; 16] = [
    0x11, 0x22, 0x33, 0x44, 0x55, 0x66, 0x77, 0x88, 0x99, 0xaa, 0xbb, 0xcc, 0xdd, 0xee, 0xff, 0x00,
];

/// A copy of bytes.
fn copied(alloc: Global, bytes: &[u8]) -> Option<Bytes> {
    match Vec::from_slice(alloc, bytes) {
        Ok(copy) => Some(Bytes::from_vec(copy)),
        Err(_) => None,
    }
}

/// The one part of the program.
fn parts(alloc: Global) -> Option<Parts> {
    let part = Part {
        kind: Kind::Data,
        addr: DATA,
        size: 16,
        bytes: copied(alloc, &BYTES)?,
    };
    let mut parts = Vec::new(alloc);
    match parts.push(part) {
        Ok(()) => Some(Parts::from_vec(parts)),
        Err(_) => None,
    }
}

/// The program, with a text of zeros.
fn image(alloc: Global, big: bool) -> Option<Image> {
    let parts = parts(alloc)?;
    let bytes = copied(alloc, &[0; 8])?;
    Some(Image {
        entry: PC,
        text: Text {
            start: PC,
            big,
            bytes,
        },
        parts,
    })
}

/// The state of the program at its start.
fn start(alloc: Global, big: bool) -> Option<Arch> {
    let image = image(alloc, big)?;
    if !image.fits() {
        return None;
    }
    match Arch::start(alloc, image, &[]) {
        Ok(arch) => Some(arch),
        Err(_) => None,
    }
}

/// The same, with the address of its bytes in register 4, and an overlay on it.
fn base(alloc: Global, big: bool, size: u32) -> Option<(Arch, Overlay)> {
    let mut arch = start(alloc, big)?;
    arch.set_reg(4, DATA);
    match Overlay::new(alloc, size) {
        Ok(over) => Some((arch, over)),
        Err(_) => None,
    }
}

/// A store of two values, or a load that gives them, so many bytes behind `DATA`.
#[derive(Clone, Copy)]
struct Row {
    op: Op,
    at: u16,
    first: u32,
    second: u32,
}

const fn of(op: Op, at: u16, first: u32, second: u32) -> Row {
    Row {
        op,
        at,
        first,
        second,
    }
}

/// Whether an operation is a system call.
fn is_call(op: Op) -> bool
    ensures { IsTrue result ↔ (op ≡ Op.Syscall) }
{
    op == Op::Syscall
}

/// The instruction of a row, with the registers 8 and 9 where it has any.
fn instr(row: &Row) -> Instr {
    Instr {
        op: row.op,
        rs: 4,
        rt: if row.op == Op::Dsz { 0 } else { 8 },
        rd: 0,
        shamt: 0,
        imm: row.at,
        target: 0,
    }
}

/// Whether a view has room for the effect.
fn has_room(view: &SpecView<'_>, e: &Changes) -> bool
    requires { ForSome e.now.mem (λ w. w.addr + length w.bytes.items ≤ 2 ^ 32) }
    ensures room { IsTrue result → applied_in view.now < view.now.over.now.size }
    ensures block { IsTrue result → WritesInBlock e.now }
{
    match &e.mem {
        Some(write) => view.room(write.addr, write.bytes.len() as u32),
        None => view.room(0, 0),
    }
}

/// The text of the program, which nothing here writes.
const TEXT: TextRange = TextRange {
    start: PC,
    end: PC + 8,
};

/// Applies the effect of an instruction to a view, and answers whether it could be.
fn acts(view: &mut SpecView<'_>, i: &Instr) -> bool {
    if is_call(i.op) || !i.well_formed() {
        return false;
    }
    match effect(view, i, PC, TEXT) {
        Ok(changes) => {
            let fits = has_room(view, &changes);
            if fits {
                view.apply(&changes);
            }
            fits
        }
        Err(_) => false,
    }
}

/// Does a store on a view that is made for it, and answers whether it could be.
fn stores(arch: &Arch, over: &mut Overlay, row: &Row) -> bool {
    let mut view = SpecView { base: arch, over };
    view.set_reg(8, row.first);
    view.set_reg(9, row.second);
    acts(&mut view, &instr(row))
}

/// Whether a load on a view gives its values.
fn loads(view: &SpecView<'_>, row: &Row) -> bool {
    let i = instr(row);
    if is_call(i.op) || !i.well_formed() {
        return false;
    }
    let values = [(8, row.first), (9, row.second)];
    let count = if row.op == Op::Dlw { 2 } else { 1 };
    match effect(view, &i, PC, TEXT) {
        Ok(changes) => changes.regs.as_slice() == &values[..count],
        Err(_) => false,
    }
}

/// Whether a machine reads these bytes from `DATA` on.
fn reads<M: Machine>(m: &M, bytes: &[u8; 16]) -> bool {
    let mut same = true;
    for (k, byte) in bytes.iter().enumerate() {
        same = same && m.byte(DATA + k as u32) == *byte;
    }
    same
}

/// Some stores, the bytes that they leave, and what loads give then.
#[derive(Clone, Copy)]
struct Case<'a> {
    big: bool,
    stores: &'a [Row],
    bytes: [u8; 16],
    loads: &'a [Row],
}

/// Whether stores leave the bytes of a case in a view and the base as it was.
fn all_store(arch: &Arch, over: &mut Overlay, case: &Case<'_>) -> bool {
    for row in case.stores {
        if !stores(arch, over, row) {
            return false;
        }
    }
    let view = SpecView { base: arch, over };
    !view.room(DATA, 1) && reads(&view, &case.bytes) && reads(arch, &BYTES)
}

/// Whether loads give what a case says.
fn all_load(arch: &Arch, over: &mut Overlay, case: &Case<'_>) -> bool {
    let view = SpecView { base: arch, over };
    for row in case.loads {
        if !loads(&view, row) {
            return false;
        }
    }
    true
}

/// Whether nothing is overlaid.
fn is_bare(arch: &Arch, over: &mut Overlay) -> bool {
    let bare = over.applied() == 0;
    let view = SpecView { base: arch, over };
    bare && reads(&view, &BYTES) && (view.reg(8), view.reg(9), view.reg(4)) == (0, 0, DATA)
}

/// Whether a case comes out, and again after a rollback.
fn comes_out_twice(arch: &Arch, over: &mut Overlay, case: &Case<'_>) -> bool {
    for _ in 0..2u8 {
        let done = all_store(arch, over, case) && all_load(arch, over, case);
        let count = over.applied() as usize == case.stores.len();
        over.rollback();
        if !done || !count || !is_bare(arch, over) {
            return false;
        }
    }
    true
}

/// Whether a case comes out on an overlay that has just room for its stores, of which there are few.
fn comes_out(alloc: Global, case: &Case<'_>) -> bool {
    match base(alloc, case.big, case.stores.len().min(9) as u32) {
        Some((arch, mut over)) => comes_out_twice(&arch, &mut over, case),
        None => false,
    }
}

/// Whether all cases come out.
fn all_come_out(alloc: Global, cases: &[Case<'_>]) -> bool {
    for case in cases {
        if !comes_out(alloc, case) {
            return false;
        }
    }
    true
}

/// A word over four bytes; a byte over a half over a word; a byte beside what isn't written; doubles
/// under and over words; the end of a word over another word. Each in both byte orders, seen by loads of
/// every size, and gone after a rollback.
#[test]
fn stores_are_seen_until_rollback(rt: HostRuntime) {
    let word = [of(Op::Sw, 0, 0xaabb_ccdd, 0)];
    let mixed = [
        of(Op::Sw, 0, 0xaabb_ccdd, 0),
        of(Op::Sh, 2, 0x0102, 0),
        of(Op::Sb, 1, 0x7f, 0),
        of(Op::Sb, 5, 0x0a, 0),
    ];
    let doubles = [
        of(Op::Sb, 9, 0x99, 0),
        of(Op::Dsw, 8, 0x0102_0304, 0x0506_0708),
        of(Op::Sw, 12, 0xaabb_ccdd, 0),
        of(Op::Dsz, 0, 0, 0),
        of(Op::Sb, 7, 0x80, 0),
        of(Op::Swl, 5, 0x1234_5678, 0),
    ];
    let cases = [
        Case {
            big: false,
            stores: &word,
            bytes: [
                0xdd, 0xcc, 0xbb, 0xaa, 0x55, 0x66, 0x77, 0x88, 0x99, 0xaa, 0xbb, 0xcc, 0xdd, 0xee,
                0xff, 0x00,
            ],
            loads: &[
                of(Op::Lw, 0, 0xaabb_ccdd, 0),
                of(Op::Dlw, 0, 0xaabb_ccdd, 0x8877_6655),
            ],
        },
        Case {
            big: true,
            stores: &word,
            bytes: [
                0xaa, 0xbb, 0xcc, 0xdd, 0x55, 0x66, 0x77, 0x88, 0x99, 0xaa, 0xbb, 0xcc, 0xdd, 0xee,
                0xff, 0x00,
            ],
            loads: &[
                of(Op::Lw, 0, 0xaabb_ccdd, 0),
                of(Op::Dlw, 0, 0xaabb_ccdd, 0x5566_7788),
            ],
        },
        Case {
            big: false,
            stores: &mixed,
            bytes: [
                0xdd, 0x7f, 0x02, 0x01, 0x55, 0x0a, 0x77, 0x88, 0x99, 0xaa, 0xbb, 0xcc, 0xdd, 0xee,
                0xff, 0x00,
            ],
            loads: &[
                of(Op::Lb, 0, 0xffff_ffdd, 0),
                of(Op::Lh, 0, 0x7fdd, 0),
                of(Op::Lhu, 2, 0x0102, 0),
                of(Op::Lh, 4, 0x0a55, 0),
                of(Op::Lh, 6, 0xffff_8877, 0),
                of(Op::Lw, 0, 0x0102_7fdd, 0),
                of(Op::Lw, 4, 0x8877_0a55, 0),
                of(Op::Dlw, 0, 0x0102_7fdd, 0x8877_0a55),
            ],
        },
        Case {
            big: true,
            stores: &mixed,
            bytes: [
                0xaa, 0x7f, 0x01, 0x02, 0x55, 0x0a, 0x77, 0x88, 0x99, 0xaa, 0xbb, 0xcc, 0xdd, 0xee,
                0xff, 0x00,
            ],
            loads: &[
                of(Op::Lbu, 0, 0xaa, 0),
                of(Op::Lh, 0, 0xffff_aa7f, 0),
                of(Op::Lhu, 2, 0x0102, 0),
                of(Op::Lh, 4, 0x550a, 0),
                of(Op::Lh, 6, 0x7788, 0),
                of(Op::Lw, 0, 0xaa7f_0102, 0),
                of(Op::Lw, 4, 0x550a_7788, 0),
                of(Op::Dlw, 0, 0xaa7f_0102, 0x550a_7788),
            ],
        },
        Case {
            big: false,
            stores: &doubles,
            bytes: [
                0x00, 0x00, 0x00, 0x00, 0x34, 0x12, 0x00, 0x80, 0x04, 0x03, 0x02, 0x01, 0xdd, 0xcc,
                0xbb, 0xaa,
            ],
            loads: &[
                of(Op::Dlw, 8, 0x0102_0304, 0xaabb_ccdd),
                of(Op::Dlw, 0, 0, 0x8000_1234),
                of(Op::Lh, 10, 0x0102, 0),
            ],
        },
        Case {
            big: true,
            stores: &doubles,
            bytes: [
                0x00, 0x00, 0x00, 0x00, 0x00, 0x12, 0x34, 0x56, 0x01, 0x02, 0x03, 0x04, 0xaa, 0xbb,
                0xcc, 0xdd,
            ],
            loads: &[
                of(Op::Dlw, 8, 0x0102_0304, 0xaabb_ccdd),
                of(Op::Dlw, 0, 0, 0x0012_3456),
                of(Op::Lh, 10, 0x0304, 0),
            ],
        },
    ];
    assert!(rt; all_come_out(rt.alloc(), &cases));
}

/// An instruction on two registers, which writes no general one.
fn pair(op: Op, rs: u8, rt: u8) -> Instr {
    Instr {
        op,
        rs,
        rt,
        rd: 0,
        shamt: 0,
        imm: 0,
        target: 0,
    }
}

/// HI, LO and registers 0, 4 and 31.
fn places<M: Machine>(m: &M) -> [u32; 5] {
    [m.hi(), m.lo(), m.reg(0), m.reg(4), m.reg(31)]
}

/// Whether registers, HI and LO are written over a base, also where there is no room.
fn registers_are_seen(arch: &Arch, over: &mut Overlay) -> bool {
    let mut view = SpecView { base: arch, over };
    view.set_reg(8, 17);
    view.set_reg(9, 5);
    let divided = acts(&mut view, &pair(Op::Divu, 8, 9)) && places(&view) == [2, 3, 0, DATA, 0];
    let linked = acts(&mut view, &pair(Op::Jal, 0, 0))
        && places(&view) == [2, 3, 0, DATA, PC + 8]
        && !view.room(0, 0);
    view.set_hi(6);
    view.set_lo(7);
    view.set_reg(0, 8);
    view.set_reg(4, 9);
    let set = places(&view) == [6, 7, 0, 9, PC + 8] && places(arch) == [0, 0, 0, DATA, 0];
    divided && linked && set
}

/// Whether registers, HI and LO are those of the base.
fn registers_are_bare(arch: &Arch, over: &mut Overlay) -> bool {
    places(&SpecView { base: arch, over }) == [0, 0, 0, DATA, 0]
}

fn registers_come_out(alloc: Global) -> bool {
    match base(alloc, false, 2) {
        Some((arch, mut over)) => {
            let seen = registers_are_seen(&arch, &mut over);
            over.rollback();
            seen && registers_are_bare(&arch, &mut over)
        }
        None => false,
    }
}

/// A quotient and its remainder, a return address, and what is set, register 0 excepted.
#[test]
fn registers_are_seen_until_rollback(rt: HostRuntime) {
    assert!(rt; registers_come_out(rt.alloc()));
}

/// Whether there is room for each of the writes that lie in one block, and for none of the others.
fn rooms_are(view: &SpecView<'_>, rows: &[(u32, u32, bool)], any: bool) -> bool {
    for (addr, len, in_block) in rows {
        if u64::from(*addr) + u64::from(*len) > 0x1_0000_0000
            || view.room(*addr, *len) != (*in_block && any)
        {
            return false;
        }
    }
    true
}

/// Sets two bytes at the end of a block, where there is room.
fn sets(view: &mut SpecView<'_>) -> bool {
    let fits = view.room(DATA + 6, 2);
    if fits {
        view.set_bytes(DATA + 6, &[0xab, 0xcd]);
    }
    fits
}

/// Whether there is room for two effects.
fn has_room_for_two(arch: &Arch, over: &mut Overlay, rows: &[(u32, u32, bool)]) -> bool {
    let mut view = SpecView { base: arch, over };
    let room = rooms_are(&view, rows, true) && sets(&mut view) && sets(&mut view);
    let full = rooms_are(&view, rows, false) && !sets(&mut view);
    room && full && (view.byte(DATA + 5), view.byte(DATA + 7)) == (0x66, 0xcd)
}

/// Whether there is room for two effects, and again after a rollback.
fn room_comes_out(alloc: Global, rows: &[(u32, u32, bool)]) -> bool {
    match base(alloc, true, 2) {
        Some((arch, mut over)) => {
            let first = has_room_for_two(&arch, &mut over, rows) && over.applied() == 2;
            over.rollback();
            first && over.applied() == 0 && has_room_for_two(&arch, &mut over, rows)
        }
        None => false,
    }
}

/// Ranges in one block of 8 bytes and over two, and a set of bytes as an effect.
#[test]
fn room_is_for_effects_in_one_block(rt: HostRuntime) {
    let rows = [
        (DATA, 8, true),
        (DATA + 1, 8, false),
        (DATA + 6, 2, true),
        (DATA + 6, 3, false),
        (DATA + 7, 1, true),
        (DATA + 3, 0, true),
        (DATA, 9, false),
        (0xffff_fff8, 8, true),
    ];
    assert!(rt; room_comes_out(rt.alloc(), &rows));
}
