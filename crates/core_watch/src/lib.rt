//! Those who watch the out-of-order machine: what they are shown, and what they promise.
//!
//! A `Watch` is shown each event of a cycle in order, and with each commit the record of its
//! instruction. It says by two relations what it has taken, and within what it was cut. `show` shows
//! events one after another: the watch has taken them all, or was cut within one of them, and those
//! behind it were not shown.
#![tactic(auto)]

mod laws;
mod showing;
#[cfg(test)]
mod tests;
mod watching;

pub use laws::{
    all_events_are_shown, cycles_show_their_stages, last_commits_show_commits,
    next_commits_are_shown, stages_show_all_commits,
};
pub use showing::{show, show_commit};
pub use watching::Watch;
