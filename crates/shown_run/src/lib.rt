//! What a watch is shown of a whole run of the out-of-order machine.
//!
//! `specs/Run.antt` joins what is shown of its cycles, and `specs/Headline.antt` says what that has to do with the
//! functional run. The functions of `laws` promise for every sound run that what was shown of a cycle never changes, that
//! the commits that were shown are the first steps of the functional run and all of them where the machine stopped by
//! itself, that one comes in every K cycles until then, and that the events are those of a legal schedule.
#![tactic(auto)]

mod laws;

pub use laws::{items_stay, runs_add_their_cycles, runs_begin_alike, runs_keep_the_headline};
