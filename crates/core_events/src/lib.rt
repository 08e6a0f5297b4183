//! What the parts of a core know of the events that are shown.
//!
//! The events of each stage of a cycle are those of the rows behind it (`core_watch`). The laws here say
//! how they come from the parts: commits from the stations that leave the unit, write-backs and returns
//! from the rows of the unit, squashes from the row that recovers.
#![tactic(auto)]

mod laws;

pub use laws::{
    recoveries_squash_all_behind, stages_show_their_turns, turns_show_commits,
    units_show_completions,
};
