//! What the parts of a core hold where a run has come so far.
//!
//! A core holds the state behind the right rows that were dispatched, which runs ahead of the commits. The laws
//! here say which state of the functional run that is, that it is the last one where the machine has stopped or
//! an exit has committed, and of which references and events the hierarchy and the predictor are then.
#![tactic(auto)]

mod laws;

pub use laws::{
    budgets_end_both_runs, exits_leave_the_last_state, first_ends_are_of_both_runs,
    histories_are_so_far, states_are_steps, stops_leave_the_last_state,
};
