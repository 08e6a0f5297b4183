//! The register update unit: the rows in flight, in order, with the marks of what was done to them.
//!
//! A row waits from its dispatch for those before it that write what it reads, issues where they are
//! done, and leaves in order, or is dropped with all rows behind a mispredicted one. The crate
//! promises that each question about the rows is answered by the rule, which is stated over the list
//! of live rows: the least row that passes, and none exactly where no row does. `Ruu::new` alone
//! takes memory.
#![tactic(auto)]

mod laws;
mod ring;
mod search;
mod slot;
mod station;
#[cfg(test)]
mod tests;
mod unit;

pub use laws::{
    completions_are_where_they_are_said, numbers_name_rows, retired_producers_are_done,
    rows_issue_once, squashes_leave_older_rows, stores_produce_nothing, the_oldest_row_is_answered,
};
pub use station::Station;
pub use unit::Ruu;
