//! The stages of recovery, issue, dispatch and fetch of a cycle, under a watch.
//!
//! Each call has its stage done and counted, and shows the watch what happened in it, one event after another and in
//! the order of the rows. `specs/Watched.antt` has what a stage owes under a watch: the parts stand for the table
//! behind it, and counts have become that table's, whatever the watch answered; the watch has taken exactly the events
//! of the table in this stage of the cycle, or was cut within one of them. Dispatch alone may be cut short, by a fault
//! of the watch or want of memory (`specs/Dispatching.antt`), and takes memory as its turns do.
#![tactic(auto)]

mod dispatching;
mod fetching;
mod issuing;
mod recovering;

pub use dispatching::{DispatchEnd, dispatch};
pub use fetching::fetch;
pub use issuing::issue;
pub use recovering::recover;
