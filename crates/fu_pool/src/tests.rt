ghost use Rattle.std.specs.Prelude.{◌≡◌};

use crate::Pool::{self, Alu, Mult, Port};
use crate::Pools;

/// A pool, a cycle, for how many cycles a unit is taken where one is free, and whether one is.
type Question = (Pool, u64, u32, bool);

/// Whether the pools answer as the rows say, whose cycles don't fall.
fn agrees(mut pools: Pools, rows: &[Question]) -> bool
    requires { pools.last ≡ 0 }
{
    let mut now = 0;
    let mut all = true;
    for row in rows {
        let (pool, cycle, hold, answer) = *row;
        if cycle < now || cycle >= 1 << 62 {
            return false;
        }
        now = cycle;
        let free = pools.is_free(pool, now);
        all = all && free == answer;
        if free {
            pools.take(pool, now, hold);
        }
    }
    all
}

#[test]
fn a_multiplier_is_held_for_nineteen_cycles(rt: HostRuntime) {
    let rows = [
        (Mult, 3, 19, true),
        (Mult, 3, 0, false),
        (Alu, 3, 0, true),
        (Mult, 21, 0, false),
        (Port, 21, 0, true),
        (Mult, 22, 0, true),
    ];
    assert!(rt; agrees(Pools::new(1, 1, 1), &rows));
}

/// The rows of `tools/machine-walks fu_pool`.
const WALK: [Question; 60] = [
    (Mult, 7, 1, true),
    (Port, 7, 1, true),
    (Mult, 8, 19, true),
    (Port, 8, 1, true),
    (Mult, 8, 1, false),
    (Port, 8, 1, true),
    (Alu, 8, 1, true),
    (Mult, 10, 0, false),
    (Port, 10, 0, true),
    (Mult, 12, 19, false),
    (Alu, 19, 1, true),
    (Alu, 26, 0, true),
    (Port, 26, 1, true),
    (Alu, 27, 0, true),
    (Port, 27, 1, true),
    (Mult, 28, 19, true),
    (Alu, 29, 1, true),
    (Port, 29, 1, true),
    (Mult, 30, 19, false),
    (Alu, 30, 0, true),
    (Port, 30, 0, true),
    (Port, 30, 1, true),
    (Alu, 30, 1, true),
    (Port, 30, 1, true),
    (Mult, 31, 19, false),
    (Mult, 31, 19, false),
    (Mult, 32, 0, false),
    (Alu, 33, 1, true),
    (Alu, 33, 0, true),
    (Alu, 40, 0, true),
    (Mult, 47, 19, true),
    (Port, 47, 1, true),
    (Port, 49, 1, true),
    (Alu, 50, 1, true),
    (Alu, 50, 0, true),
    (Mult, 51, 1, false),
    (Alu, 51, 0, true),
    (Alu, 51, 0, true),
    (Port, 51, 1, true),
    (Alu, 53, 1, true),
    (Mult, 53, 0, false),
    (Alu, 53, 1, true),
    (Mult, 53, 19, false),
    (Mult, 60, 19, false),
    (Alu, 60, 1, true),
    (Port, 61, 0, true),
    (Port, 61, 0, true),
    (Alu, 62, 1, true),
    (Mult, 62, 19, false),
    (Mult, 62, 19, false),
    (Mult, 64, 19, false),
    (Port, 65, 1, true),
    (Port, 65, 0, true),
    (Alu, 67, 0, true),
    (Mult, 67, 0, true),
    (Port, 67, 0, true),
    (Alu, 68, 1, true),
    (Alu, 68, 0, true),
    (Mult, 68, 0, true),
    (Alu, 68, 0, true),
];

#[test]
fn a_walk_of_takes_agrees(rt: HostRuntime) {
    assert!(rt; agrees(Pools::new(2, 1, 2), &WALK));
}
