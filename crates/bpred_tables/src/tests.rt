ghost use Rattle.std.specs.Prelude.{◌≡◌, ◌≤◌, length};

use crate::{Bimod, Btb, Comb, Direction, Fixed, Ras, TwoLevel};
use std::alloc::Global;

/// A branch with the direction that is to be predicted for it, and then its outcome.
type Step = (u32, bool, bool);

/// Whether each of these directions is predicted, where look-ups and updates take turns.
fn plays<D: Direction>(direction: &mut D, steps: &[Step]) -> bool {
    for (pc, predicted, taken) in steps {
        if direction.predict(*pc) != *predicted {
            return false;
        }
        direction.update(*pc, *taken);
    }
    true
}

/// A branch that isn't taken each third time, by turns with one that is taken every other time.
const LOOP: [(u32, bool); 24] = [
    (0x400000, true),
    (0x400008, true),
    (0x400000, false),
    (0x400008, false),
    (0x400000, true),
    (0x400008, true),
    (0x400000, true),
    (0x400008, false),
    (0x400000, false),
    (0x400008, true),
    (0x400000, true),
    (0x400008, false),
    (0x400000, true),
    (0x400008, true),
    (0x400000, false),
    (0x400008, false),
    (0x400000, true),
    (0x400008, true),
    (0x400000, true),
    (0x400008, false),
    (0x400000, false),
    (0x400008, true),
    (0x400000, true),
    (0x400008, false),
];

/// Plays the loop; `predicted` has a `T` or an `N` for each branch.
fn plays_loop<D: Direction>(direction: &mut D, predicted: &[u8]) -> bool {
    for ((pc, taken), letter) in LOOP.iter().zip(predicted) {
        if direction.predict(*pc) != (*letter == b'T') {
            return false;
        }
        direction.update(*pc, *taken);
    }
    predicted.len() == LOOP.len()
}

/// Plays with so many counters.
fn bimodal_plays(alloc: Global, size: u32, steps: &[Step]) -> bool
    requires { 1 ≤ size }
{
    match Bimod::new(alloc, size) {
        Ok(mut bimodal) => plays(&mut bimodal, steps),
        Err(_) => false,
    }
}

#[test]
fn constants_and_counters_predict(rt: HostRuntime) {
    let taken = [(0, true, false), (8, true, false)];
    let not_taken = [(0, false, true), (8, false, true)];
    // One counter, which goes 2, 3, 3, 2, 1, 2.
    let one = [
        (0, false, true),
        (0, true, true),
        (0, true, true),
        (0, true, false),
        (0, true, false),
        (0, false, true),
        (0, true, false),
    ];
    // Four counters: 0x400000, 0x400004 and 0x400020 share the first, 0x400008 and 0x400028 the second.
    let four = [
        (0x400000, false, true),
        (0x400020, true, false),
        (0x400008, false, true),
        (0x400000, false, true),
        (0x400004, true, true),
        (0x400028, true, false),
        (0x400010, false, false),
        (0x400008, false, false),
        (0x400000, true, false),
        (0x400000, true, false),
        (0x400000, false, false),
    ];
    let agree = plays(&mut Fixed { taken: true }, &taken)
        && plays(&mut Fixed { taken: false }, &not_taken)
        && bimodal_plays(rt.alloc(), 1, &one)
        && bimodal_plays(rt.alloc(), 4, &four);
    assert!(rt; agree);
}

/// The sizes of a two-level predictor: histories, counters, outcomes in a history, and whether it mixes.
type Levels = (u32, u32, u32, bool);

/// Plays with a two-level predictor of these sizes.
fn two_level_plays(alloc: Global, levels: Levels, steps: &[Step]) -> bool
    requires first { 1 ≤ levels.0 }
    requires second { 1 ≤ levels.1 }
    requires width { levels.2 ≤ 16 }
{
    match TwoLevel::new(alloc, levels.0, levels.1, levels.2, levels.3) {
        Ok(mut two_level) => plays(&mut two_level, steps),
        Err(_) => false,
    }
}

/// Plays the loop with one.
fn two_level_plays_loop(alloc: Global, levels: Levels, predicted: &[u8]) -> bool
    requires first { 1 ≤ levels.0 }
    requires second { 1 ≤ levels.1 }
    requires width { levels.2 ≤ 16 }
{
    match TwoLevel::new(alloc, levels.0, levels.1, levels.2, levels.3) {
        Ok(mut two_level) => plays_loop(&mut two_level, predicted),
        Err(_) => false,
    }
}

#[test]
fn histories_choose_counters(rt: HostRuntime) {
    // The histories before these are 0, 1, 3 and 3.
    let one = [
        (0, false, true),
        (0, false, true),
        (0, false, true),
        (0, true, true),
    ];
    // Modulo 7, the last instruction of memory, whose number times 2^16 passes 32 bits, adds 6 to the
    // history. The histories before these are 0, 1, 3 and 7: the counters are 0, 0, 3 and 0.
    let last = [
        (0, false, true),
        (0xfffffff8, true, true),
        (0, false, true),
        (0, true, false),
    ];
    // The greatest sizes. The last instruction of memory has the last place of each table.
    let large = [
        (0xfffffff8, false, true),
        (0xfffffff8, false, true),
        (0, false, true),
    ];
    let agree = two_level_plays(rt.alloc(), (1, 4, 2, false), &one)
        && two_level_plays(rt.alloc(), (1, 7, 16, false), &last)
        && two_level_plays(rt.alloc(), (65536, 65536, 16, true), &large);
    assert!(rt; agree);
}

#[test]
fn histories_learn_a_loop(rt: HostRuntime) {
    let agree = two_level_plays_loop(rt.alloc(), (2, 16, 2, false), b"NNNNNNNNNTTNNTNNTTTNNTTN")
        && two_level_plays_loop(rt.alloc(), (2, 16, 2, true), b"NNTTNNNNTNTNTTTNTTTNTTTN")
        && two_level_plays_loop(rt.alloc(), (1, 9, 16, false), b"NNNNNNNNTTTNNTTTTNNNNTTT");
    assert!(rt; agree);
}

/// Plays with four counters and a two-level predictor of one history, and two choosers.
fn combined_plays(alloc: Global, steps: &[Step]) -> bool {
    let Ok(bimodal) = Bimod::new(alloc, 4) else {
        return false;
    };
    let Ok(two_level) = TwoLevel::new(alloc, 1, 8, 2, true) else {
        return false;
    };
    match Comb::new(alloc, bimodal, two_level, 2) {
        Ok(mut combined) => plays(&mut combined, steps),
        Err(_) => false,
    }
}

#[test]
fn choosers_follow_the_better_answer(rt: HostRuntime) {
    let steps = [
        (0x400000, false, true),
        (0x400000, true, false),
        (0x400000, false, true),
        (0x400000, false, false),
        (0x400000, true, true),
        (0x400000, false, false),
        (0x400000, true, true),
        (0x400000, false, false),
        (0x400000, true, true),
        (0x400000, false, false),
        (0x400008, false, false),
        (0x400008, false, true),
        (0x400010, false, true),
        (0x400010, false, true),
        // The first chooser has gone down to 2, and goes to 1 between these last two.
        (0x400000, false, false),
        (0x400000, true, false),
        (0x400000, false, false),
    ];
    assert!(rt; combined_plays(rt.alloc(), &steps));
}

/// An update of a pc with a target, and what is held then for 0x400000, 0x400008, 0x400010 and 0x400020.
type Update = (u32, u32, [Option<u32>; 4]);

/// Whether a buffer of two sets of two ways holds this after each of these updates, and nothing for a
/// pc of the set and the number of 0x400000.
fn updates(alloc: Global, steps: &[Update]) -> bool {
    let Ok(mut buffer) = Btb::new(alloc, 2, 2) else {
        return false;
    };
    for (pc, target, want) in steps {
        buffer.update(*pc, *target);
        let held = [0x400000, 0x400008, 0x400010, 0x400020].map(|pc| buffer.target(pc));
        if held != *want {
            return false;
        }
    }
    buffer.target(0x400004).is_none()
}

#[test]
fn targets_leave_by_age_of_their_updates(rt: HostRuntime) {
    let steps = [
        (0x400000, 0x400100, [Some(0x400100), None, None, None]),
        (
            0x400010,
            0x400200,
            [Some(0x400100), None, Some(0x400200), None],
        ),
        (
            0x400020,
            0x400300,
            [None, None, Some(0x400200), Some(0x400300)],
        ),
        (
            0x400010,
            0x400208,
            [None, None, Some(0x400208), Some(0x400300)],
        ),
        (
            0x400008,
            0x400400,
            [None, Some(0x400400), Some(0x400208), Some(0x400300)],
        ),
        (
            0x400000,
            0x400108,
            [Some(0x400108), Some(0x400400), Some(0x400208), None],
        ),
    ];
    assert!(rt; updates(rt.alloc(), &steps));
}

/// A call of the stack.
#[derive(Clone, Copy)]
enum Call {
    Push(u32),
    /// It gives this address.
    Pop(u32),
    /// The top is this cell.
    Top(u32),
    SetTop(u32),
}

/// Makes a call of a stack of so many cells; whether it answers what it is to.
fn answers(stack: &mut Ras, size: u32, call: Call) -> bool
    requires { length stack.old.cells ≡ size }
    ensures { length stack.new.cells ≡ size }
{
    match call {
        Call::Push(address) => {
            stack.push(address);
            true
        }
        Call::Pop(want) => stack.pop() == want,
        Call::Top(want) => stack.top() == want,
        Call::SetTop(cell) => {
            if cell < size {
                stack.set_top(cell);
            }
            cell < size
        }
    }
}

/// Whether a new stack of so many cells answers these calls.
fn goes_round(alloc: Global, size: u32, calls: &[Call]) -> bool
    requires some { 1 ≤ size }
    requires limit { size ≤ 1024 }
{
    let Ok(mut stack) = Ras::new(alloc, size) else {
        return false;
    };
    for call in calls {
        if !answers(&mut stack, size, *call) {
            return false;
        }
    }
    true
}

#[test]
fn returns_go_round_the_ring(rt: HostRuntime) {
    let nine = [
        Call::Pop(0),
        Call::Top(7),
        Call::Push(1),
        Call::Push(2),
        Call::Push(3),
        Call::Push(4),
        Call::Push(5),
        Call::Push(6),
        Call::Push(7),
        Call::Push(8),
        Call::Push(9),
        Call::Pop(9),
        Call::Pop(8),
        Call::Pop(7),
        Call::Pop(6),
        Call::Pop(5),
        Call::Pop(4),
        Call::Pop(3),
        Call::Pop(2),
        Call::Pop(9),
    ];
    let set = [
        Call::Push(16),
        Call::Top(1),
        Call::Push(24),
        Call::Top(2),
        Call::SetTop(1),
        Call::Pop(16),
        Call::SetTop(2),
        Call::Pop(24),
    ];
    let one = [Call::Push(5), Call::Push(6), Call::Pop(6), Call::Pop(6)];
    let agree = goes_round(rt.alloc(), 8, &nine)
        && goes_round(rt.alloc(), 8, &set)
        && goes_round(rt.alloc(), 1, &one);
    assert!(rt; agree);
}
