//! One cache, as it is simulated: which blocks its sets hold, which of them are dirty, from which
//! cycle on each is filled, and how many accesses hit, missed, replaced a block and wrote one back.
//!
//! The definition replays the whole list of calls from an empty cache: `specs/Replay.antt` says
//! what each set holds and what each access answers. The crate promises that a new `Cache` stands
//! for the empty list, that each call takes a cache that stands for a list of calls to one that
//! stands for the call and that list, and that every answer is the one that the list gives. After
//! `Cache::new` no call takes memory. The functions of `laws` carry what follows of every list:
//! hits and misses make up the accesses, a set never holds more blocks than ways nor one twice, and
//! a set holds the blocks that were accessed last, or that came in last, by the kind of the cache.
#![tactic(auto)]

mod answers;
mod caches;
mod config;
mod laws;
#[cfg(test)]
mod tests;
mod ways;

pub use answers::{Counts, Touch, Victim};
pub use caches::Cache;
pub use config::CacheConfig;
pub use laws::{
    accesses_keep_contents, calls_tell_what_is_held, counts_balance, fill_ends_stay,
    five_accesses_count, newest_stay, references_decide, sets_keep_places,
};
