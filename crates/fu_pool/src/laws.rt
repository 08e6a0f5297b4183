//! What follows from the definitions, each law as the contract of a function that does nothing.
ghost use Rattle.std.specs.Prelude.{◌≡◌, ℕ, ◌+◌, ◌<◌, ◌≤◌, List, ◌∷◌};
ghost use Rattle.fu_pool.specs.Takes.{Take, held, last_cycle};
ghost use Rattle.fu_pool.specs.Laws.{IsGranted, HoldsItsUnit, KeepsApart, Nineteen};

use crate::pools::Pool;

/// Where each take found a unit free, and no cycle fell, no more units of a pool are held at any
/// cycle from the newest take on than there are.
pub fn units_suffice()
    ensures { (sizes : Pool → ℕ) (takes : List Take) (p : Pool) (c : ℕ)
        → IsGranted sizes takes → last_cycle takes ≤ c → held p c takes ≤ sizes p }
{}

/// A take holds one unit more of its pool from its cycle on, up to the last of its cycles, and none
/// before or after.
pub fn a_unit_is_held_to_its_end()
    ensures { (t : Take) (older : List Take) (c : ℕ) → HoldsItsUnit t older c }
{}

/// A take leaves how many units of each other pool are held.
pub fn pools_are_apart()
    ensures { (t : Take) (older : List Take) (c : ℕ) → KeepsApart t older c }
{}

/// From the newest take on, fewer units are held with each cycle, and none more.
pub fn units_are_given_back_by_time_alone()
    ensures { (sizes : Pool → ℕ) (takes : List Take) (p : Pool) (c d : ℕ)
        → IsGranted sizes takes → last_cycle takes ≤ c → c ≤ d → held p d takes ≤ held p c takes }
{}

/// A multiplier that a divide takes at cycle 3 is held up to cycle 21.
pub fn a_divide_is_held_for_nineteen_cycles()
    ensures { Nineteen }
{}
