//! A run that goes on from a point which another run left is the rest of that run.
//!
//! The crate has no code but laws, each the contract of a function that does nothing. Every number of a
//! state that a run reaches fits its place; so the point of such a state is read back as it was written,
//! fits the program's object and holds the state; and a run that begins there does what is left of the run
//! that took it, with the same text, output, counts, end and state.
#![tactic(auto)]

mod laws;

pub use laws::{
    points_hold_where_they_were_taken, restarted_runs_are_the_rest, restored_states_are_within,
    states_stay_within, what_is_read_is_bytes,
};
