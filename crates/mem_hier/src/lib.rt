//! A memory hierarchy: the caches and TLBs on the ways of fetches, loads and stores, and how many cycles
//! each reference takes, also while blocks are still being filled.
//!
//! The definition replays the whole list of references and settlings from empty caches:
//! `specs/Replay.antt` says which calls each cache gets, which is all that one cache's definition
//! asks for, and what each reference takes at its place. The crate promises that a new `Hier` stands
//! for the empty list, that each call takes a hierarchy that stands for a list to one that stands for
//! the call and that list, and that every latency and count is the one that the list gives. After
//! `Hier::new` no call takes memory. The functions of `laws` carry what follows of every list: bounds
//! of all latencies, what each cache is asked by both sides, and the balance between levels.
#![tactic(auto)]

mod caches;
mod config;
mod hier;
mod laws;
mod levels;
#[cfg(test)]
mod tests;
mod timing;

pub use config::{HierConfig, Level, Which};
pub use hier::Hier;
pub use laws::{
    bare_references_take_lookups, caches_count_what_is_asked, first_references_miss,
    latencies_have_bounds, levels_balance, settled_hits_take_lookups, waiting_hits_are_bounded,
    worked_latencies,
};
