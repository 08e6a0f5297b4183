//! The out-of-order machine, plainly: slow functions that do to rows what the stages of its table do.
//!
//! They are given every row that was ever fetched, and ask each rule of all of them. A row is kept
//! with what its instruction does at the state on which it acts, and not with that state. The contract
//! of each stage is one equation: the rows that it leaves are those of the table's definition of the
//! stage, each as it is kept. `plain_machine` has instructions done, fetches rows and runs whole cycles.
#![tactic(auto)]

pub mod commit;
pub mod dispatch;
mod done;
pub mod issue;
pub mod issue_stage;
pub mod next_fetch;
pub mod recover;
pub mod references;
mod row;
pub mod updates;

pub use row::{Places, Row};
