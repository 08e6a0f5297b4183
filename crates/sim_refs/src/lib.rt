//! What the instructions of a run ask of caches and of a predictor, and what is counted of that.
//!
//! A run is known by the records of the instructions that were done. A `CacheRun` is fed them one
//! after the other and makes the references of each, its fetch and then its load or store, in a
//! hierarchy; a `PredRun` looks each branch and jump up and tells the predictor what it did.
//! `specs/References.antt` and `specs/Predictions.antt` give the references, the events and the
//! counts as functions of the records. The crate promises that a new run stands for no records, that
//! `feed` takes one that stands for some to one that stands for the record and those, and that every
//! count is the one that the records give. After `new` no call takes memory but those that add lines to
//! a text.
#![tactic(auto)]

mod cache_run;
mod laws;
mod pred_run;
mod statistics;
#[cfg(test)]
mod tests;

pub use cache_run::CacheRun;
pub use laws::{
    counts_agree_with_statistics, first_caches_count_instructions, other_instructions_ask_nothing,
    other_look_ups_change_nothing, parts_join, predictions_are_right_or_wrong,
    references_are_in_order, references_are_of_instructions, runs_have_addresses,
};
pub use pred_run::{PredCounts, PredRun};
pub use statistics::push_caches;
