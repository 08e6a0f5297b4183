//! The recovery stage of a core.
//!
//! `recovering` names the row that recovers in a cycle, if there is one: by the unit's marks it is the
//! least right row that has its W there and behind which another instruction follows than was
//! predicted, and it is the row that recovers in the table. `recover` drops all rows behind it and
//! sends fetching on from there, lets the queue learn what is known of stores by the cycle, and answers
//! the row. `specs/Recovery.antt` has what it leaves, over the parts. The crate promises that parts
//! which stand for the table behind the commits of a cycle then stand for it behind its recovery. It
//! takes no memory.
#![tactic(auto)]

mod learn;
mod row;
mod stage;

pub use row::recovering;
pub use stage::recover;
