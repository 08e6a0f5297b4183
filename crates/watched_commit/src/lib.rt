//! The commit stage of a cycle under a watch.
//!
//! `commit_rows` lets rows commit one after another, counts each, and shows it to a watch, its record behind it. The
//! stage ends with an exit, with the last commit of a budget, or where no row commits any more; it
//! says which, and over every run whose table the parts stand for it is so in the table.
//! `specs/Stage.antt` has the stage. It takes no memory but what the watch takes.
#![tactic(auto)]

mod row;
mod stage;

pub use stage::{Committed, commit_rows};
