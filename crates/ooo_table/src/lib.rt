//! The timing of the out-of-order machine, as a definition: one table of all fetched instructions
//! and the cycles of what was done to them.
//!
//! `specs/` defines the table cycle by cycle over the functional machine, the memory hierarchy, the
//! predictor and the columns of the instruction table, and names nothing of a core that runs it. The
//! crate promises what follows from those rules alone: the functions of `laws` carry that every table
//! is a legal schedule, that the rows on the right path are the steps of the functional run, and that
//! an instruction commits within a bounded number of cycles. `OooConfig`, `Event` and `Log` are the
//! types in which a core and its texts speak of it.
#![tactic(auto)]

mod commit_bound;
mod config;
mod event;
mod laws;
mod run_laws;
mod stage_laws;
#[cfg(test)]
mod tests;
mod worked_laws;

pub use commit_bound::bound;
pub use config::OooConfig;
pub use event::{EndWord, Event, Events, Log, Mark};
pub use laws::{
    bound_holds, commits_in_order, ends_lie_between, every_end_is_legal, issue_keeps_its_rules,
    marks_have_happened, marks_stay, memory_is_in_order, one_path, places_suffice,
    producers_are_done, right_rows_stay, squashed_rows_are_quiet, units_suffice, widths_are_kept,
    wrong_rows_act_on_copies, wrong_rows_are_squashed, wrong_rows_go_on,
};
pub use run_laws::{
    commits_are_the_run, commits_come_in_time, exits_end_the_run, right_rows_are_steps,
    runs_end_where_they_first_can, stops_end_the_run, worked_bounds,
};
pub use stage_laws::{
    commit_turns_find_the_end, dispatch_turns_keep_links, events_stand, issue_finds_earlier_marks,
    issuing_rows_are_live, recovering_rows_are_live, rows_fit_the_cycles, rows_keep_their_order,
    squashes_spread, stops_are_at_the_oldest_waiting_row, waiting_rows_are_linked,
    waiting_rows_are_the_newest, wrong_rows_leave_a_place,
};
pub use worked_laws::{
    branch_without_wrong_issue, call_behind_full_unit, first_object,
    first_object_on_narrow_machine, mispredicted_branch, store_and_loads, store_and_loads_in_order,
    two_divisions, two_loads_at_once, two_loads_in_flight, wrong_store_to_text,
};
