//! How commands answer: the answers and refusals that they share, with their last words.
//!
//! A command that meets no fault ends with an `Answer`. The crate judges objects, points and traces, says
//! where words or a file are refused and why, and puts the line of a refusal, or the statistics of a
//! run, on the second stream. It promises that what is judged is what the readers' own definitions
//! say, that the line of a refusal is the one of its answer, and that nothing but this one report is
//! written.
#![tactic(auto)]

mod answer;
mod judging;
mod lines;
mod refusal;
mod report;
#[cfg(test)]
mod tests;

pub use answer::{Answer, Unbuilt, answer_of_run};
pub use judging::{judge_object, judge_point, judge_trace};
pub use lines::push_text;
pub use refusal::{Refusal, refuse, refuse_long};
pub use report::{put_answer, report_run};
