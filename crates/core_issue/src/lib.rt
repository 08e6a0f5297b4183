//! The issue stage of a core.
//!
//! `issue` gives each live row its turn, the oldest first: its main operation issues, or the access
//! of a load, where the rows before it, the order of memory, the width, the units and the ports let
//! it. `specs/Stage.antt` has the turns over the rows of the unit. The crate promises that parts
//! which stand for the table behind the recovery of a cycle then stand for it behind its issues,
//! and that the answer is what issued in it. It takes no memory.
#![tactic(auto)]

mod stage;
mod turns;
mod units;

pub use stage::issue;
