//! The words of a command: what they ask for.
//!
//! `read_words` reads words by one table of options (`table`): in any order, each no more often than
//! it may stand; `read_config` reads the lines of a configuration by the same table. What both say
//! asks for something (`Options::request`). The crate promises that `read_words` answers exactly what
//! the grammar of options says (`specs/Words`), or the first wrong place and its reason, and never
//! both; that an option among the words wins over the configuration; that the order of options says
//! nothing; and that options which are written are read back.
#![tactic(auto)]

mod asked;
mod configuration;
#[cfg(test)]
mod configuration_tests;
mod laws;
mod names;
mod options;
mod request;
#[cfg(test)]
mod request_tests;
mod table;
mod values;
mod word;
mod words;
#[cfg(test)]
mod words_tests;

pub use asked::{WordFault, clash, is_unbuilt, read_words};
pub use configuration::read_config;
pub use laws::{
    a_configuration_says_what_words_would, a_limit_that_is_left_out_has_its_default,
    an_option_among_the_words_wins, configurations_are_read_by_the_grammar,
    configurations_are_refused_at_the_first_wrong_line, numbers_have_one_word,
    requests_follow_the_grammars, start_blocks_have_their_length,
    the_order_of_options_says_nothing, words_are_read_by_the_grammar,
    words_are_refused_at_the_first_wrong_place, words_ask_for_one_thing_at_most,
    words_ask_for_something_or_are_wrong, written_options_are_read_back,
};
pub use names::Names;
pub use options::Options;
pub use request::{PointFile, Record, Request, SimSafe};
pub use table::Tool;
pub use words::WordWhy;
