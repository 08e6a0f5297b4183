//! Configurations that are read, and the first wrong line of those that are not.
use crate::asked::read_words;
use crate::configuration::read_config;
use crate::words_tests::{line_of, words_of};
use ss_base::{AsmFault, TextWhy};
use std::alloc::Global;

/// The words of a run, of one with a limit, and of a recording.
const RUN: &str = "sim-safe p1";

const LIMITED: &str = "sim-safe -max:inst 7 p1";

const RECORDING: &str = "record -o t p1";

/// Whether words with this configuration say this.
fn says(alloc: Global, line: &str, text: &str, want: &str) -> bool {
    let Ok(words) = words_of(alloc, line) else {
        return false;
    };
    let Ok(mut options) = read_words(alloc, &words) else {
        return false;
    };
    if text.len() > 65_536 || read_config(alloc, text.as_bytes(), &mut options).is_err() {
        return false;
    }
    match line_of(alloc, &options) {
        Ok(line) => line.as_str() == want,
        Err(_) => false,
    }
}

/// Whether this configuration of words is refused at a line for a reason.
fn is_refused(alloc: Global, words: &str, text: &str, line: u32, why: TextWhy) -> bool {
    let Ok(words) = words_of(alloc, words) else {
        return false;
    };
    let Ok(mut options) = read_words(alloc, &words) else {
        return false;
    };
    if text.len() > 65_536 {
        return false;
    }
    match read_config(alloc, text.as_bytes(), &mut options) {
        Ok(()) => false,
        Err(fault) => fault == AsmFault::Bad { line, why },
    }
}

/// Words, configurations, and what both say.
const SAID: [(&str, &str, &str); 10] = [
    (RUN, "", r#"- - - - - 0 - - - [] 1000000000 0 [] p1 ["p1"]"#),
    (
        RUN,
        "-max:inst 5",
        r#"- - - - - 0 - - - [] 5 0 [] p1 ["p1"]"#,
    ),
    (
        LIMITED,
        "-max:inst 5\n",
        r#"- - - - - 0 - - - [] 7 0 [6] p1 ["p1"]"#,
    ),
    (
        "sim-safe -commits a p1",
        "# c\n\n-commits b\n\t-trace\tt\r\n -chkpt q 3# x\n",
        r#"- t - a q 3 - - - [] 1000000000 0 [3] p1 ["p1"]"#,
    ),
    (
        RUN,
        "-commits -trace\n-fastfwd 1000000000000\n-max:inst 0\n-trace -5\n",
        r#"- -5 - -trace - 0 - - - [] 0 1000000000000 [] p1 ["p1"]"#,
    ),
    (
        RUN,
        "  \n-trace \"t\n#-trace u",
        r#"- "t - - - 0 - - - [] 1000000000 0 [] p1 ["p1"]"#,
    ),
    (
        RECORDING,
        "-file a\n-in i\n-file b\n-file a\n",
        r#"- - - - - 0 t i - ["a", "b", "a"] 1000000000 0 [9] p1 ["p1"]"#,
    ),
    (
        "record -file x -o t p1",
        "-file a\n-in i\n-file b",
        r#"- - - - - 0 t i - ["x"] 1000000000 0 [9, 11] p1 ["p1"]"#,
    ),
    (
        RECORDING,
        "-o u\n",
        r#"- - - - - 0 t - - [] 1000000000 0 [9] p1 ["p1"]"#,
    ),
    (
        RECORDING,
        "-file 1\n-file 2\n-file 3\n-file 4\n-file 5\n-file 6\n-file 7\n-file 8\n-max:inst 9",
        r#"- - - - - 0 t - - ["1", "2", "3", "4", "5", "6", "7", "8"] 9 0 [9] p1 ["p1"]"#,
    ),
];

/// Words, configurations, their first wrong lines, and the reasons.
const REFUSED: [(&str, &str, u32, TextWhy); 58] = [
    (RUN, "\u{1}", 1, TextWhy::Char),
    (RUN, "-commits c # \u{7f}", 1, TextWhy::Char),
    (RUN, "-speed\u{c}3", 1, TextWhy::Char),
    (RUN, "\n-commits caf\u{e9}\n", 2, TextWhy::Char),
    (RUN, "-max:inst x\u{b}", 1, TextWhy::Char),
    (RUN, "-max:inst 5\n-speed 3\n", 2, TextWhy::Option),
    (RUN, "p1", 1, TextWhy::Option),
    (RUN, "commits c", 1, TextWhy::Option),
    (RUN, "-", 1, TextWhy::Option),
    (RUN, "--help", 1, TextWhy::Option),
    (RUN, "-Trace t", 1, TextWhy::Option),
    (RUN, "\r\n\n-max:inst5", 3, TextWhy::Option),
    (RUN, "-fastfwd:warm true", 1, TextWhy::Option),
    (RUN, "-config f", 1, TextWhy::NotHere),
    (RUN, "-restart r", 1, TextWhy::NotHere),
    (RUN, "-config", 1, TextWhy::NotHere),
    (RUN, "-o t", 1, TextWhy::NotHere),
    (RUN, "-in i j", 1, TextWhy::NotHere),
    (RUN, "-file f", 1, TextWhy::NotHere),
    (RUN, "-ptrace t", 1, TextWhy::NotHere),
    (RUN, "-max:cycles x", 1, TextWhy::NotHere),
    (RUN, "-cache:il1 none", 1, TextWhy::NotHere),
    (RUN, "-cache:fill 1", 1, TextWhy::NotHere),
    (RUN, "-issue:inorder true", 1, TextWhy::NotHere),
    (RUN, "-issue:wrongpath true", 1, TextWhy::NotHere),
    (RECORDING, "-trace t", 1, TextWhy::NotHere),
    (RECORDING, "-config f", 1, TextWhy::NotHere),
    ("dis p1", "-max:inst 5", 1, TextWhy::NotHere),
    (RUN, "-commits c\n-commits c", 2, TextWhy::Twice),
    (RUN, "-max:inst 1\n\n-max:inst", 3, TextWhy::Twice),
    (RUN, "-chkpt c 1\n-chkpt d x", 2, TextWhy::Twice),
    (LIMITED, "-max:inst 1\n-max:inst 2", 2, TextWhy::Twice),
    (
        RECORDING,
        "-file 1\n-file 2\n-file 3\n-file 4\n-file 5\n-file 6\n-file 7\n-file 8\n-file 9",
        9,
        TextWhy::Twice,
    ),
    (RUN, "-commits", 1, TextWhy::Missing),
    (RUN, "-trace # t", 1, TextWhy::Missing),
    (RUN, "-max:inst", 1, TextWhy::Missing),
    (RUN, "-chkpt", 1, TextWhy::Missing),
    (RUN, "-chkpt c", 1, TextWhy::Missing),
    (RECORDING, "-file", 1, TextWhy::Missing),
    (RUN, "-max:inst x", 1, TextWhy::Number),
    (RUN, "-max:inst 01", 1, TextWhy::Number),
    (RUN, "-max:inst +1", 1, TextWhy::Number),
    (RUN, "-fastfwd -1", 1, TextWhy::Number),
    (RUN, "-fastfwd 10000000000000", 1, TextWhy::Number),
    (RUN, "-chkpt c d", 1, TextWhy::Number),
    (RUN, "-max:inst x 5", 1, TextWhy::Number),
    (LIMITED, "-max:inst x", 1, TextWhy::Number),
    (RUN, "-max:inst 1000000000001", 1, TextWhy::Range),
    (RUN, "-fastfwd 9999999999999 x", 1, TextWhy::Range),
    (RUN, "-chkpt c 1000000000001", 1, TextWhy::Range),
    (RECORDING, "-max:inst 1000000000001", 1, TextWhy::Range),
    (RUN, "-commits c d", 1, TextWhy::Extra),
    (RUN, "-max:inst 5 6", 1, TextWhy::Extra),
    (RUN, "-chkpt c 1 x", 1, TextWhy::Extra),
    (RUN, "-fastfwd 1\n-trace t t\n", 2, TextWhy::Extra),
    (RECORDING, "-file a b", 1, TextWhy::Extra),
    (RUN, "-commits c d\n-speed 3", 1, TextWhy::Extra),
    (RUN, "-commits c \\ # d", 1, TextWhy::Extra),
];

#[test]
fn configurations_say_options_or_where_they_are_wrong(rt: HostRuntime) {
    let alloc = rt.alloc();
    let agree = SAID
        .iter()
        .all(|(line, text, want)| says(alloc, line, text, want))
        && REFUSED.iter().all(|(words, text, line, why)| is_refused(
            alloc, words, text, *line, *why,
        ));
    assert!(rt; agree);
}
