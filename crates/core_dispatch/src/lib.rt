//! The dispatch stage of a core, row by row.
//!
//! `dispatch_one` lets the oldest waiting row enter the unit where it may: width and places are left, no
//! call came before it in the cycle, and a call finds the unit empty. A right row does the next step of
//! the state; a wrong one acts over it, in the overlay. At a right row that can't be done the machine
//! stops once no row is live. `specs/Verdict.antt` has the choice and `specs/Turn.antt` the turn over
//! the parts. Memory is taken only by a step of a right row that writes to pages that aren't reserved.
#![tactic(auto)]

mod enter;
mod turn;
mod verdict;

pub use turn::dispatch_one;
