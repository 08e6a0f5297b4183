//! What words ask for.
use crate::asked::{WordFault, is_unbuilt, read_words};
use crate::options::Options;
use crate::request::Request;
use crate::words::WordWhy;
use crate::words_tests::words_of;
use std::alloc::{AllocError, Global};

/// What options ask for that so many words say, as a line: its parts in their order.
fn line_of(alloc: Global, options: &Options, words: usize) -> Result<String, AllocError> {
    match options.request(alloc, words) {
        Err(_) => format!(in alloc; "no memory"),
        Ok(Request::SimSafe(run)) => {
            let (commits, trace, most, object) = (run.commits, run.trace, run.max_inst, run.object);
            let (restart, skip, args) = (run.restart, run.skip, run.args);
            let (file, at) = match run.point {
                Some(point) => (Some(point.file), point.at),
                None => (None, 0),
            };
            format!(in alloc;
                "run {commits:?} {trace:?} {most} {object} {args:?} {restart:?} {skip} {file:?} {at}"
            )
        }
        Ok(Request::Record(run)) => {
            let (out, input, most, object) = (run.out, run.input, run.max_inst, run.object);
            let files = run.files.as_slice();
            let args = run.args;
            format!(in alloc; "record {out} {input:?} {files:?} {most} {object} {args:?}")
        }
        Ok(Request::Asm { source, object }) => format!(in alloc; "asm {source} {object}"),
        Ok(Request::Dis { object }) => format!(in alloc; "dis {object}"),
        Ok(Request::Words { at, why }) => format!(in alloc; "words {at} {why:?}"),
        Ok(Request::NotBuilt) => format!(in alloc; "not built"),
    }
}

/// Whether a line asks for this.
fn asks_for(alloc: Global, line: &str, want: &str) -> bool {
    let Ok(words) = words_of(alloc, line) else {
        return false;
    };
    if is_unbuilt(&words) {
        return want == "not built";
    }
    let line = match read_words(alloc, &words) {
        Ok(options) => line_of(alloc, &options, words.len()),
        Err(WordFault::Bad { at, why }) => format!(in alloc; "words {at} {why:?}"),
        Err(WordFault::OutOfMemory) => format!(in alloc; "no memory"),
    };
    match line {
        Ok(line) => line.as_str() == want,
        Err(_) => false,
    }
}

/// Lines, and what they ask for.
const ASKED: [(&str, &str); 34] = [
    (
        "sim-safe p1",
        r#"run None None 1000000000 p1 ["p1"] None 0 None 0"#,
    ),
    (
        "sim-safe p1 -trace  x",
        r#"run None None 1000000000 p1 ["p1", "-trace", "", "x"] None 0 None 0"#,
    ),
    (
        "sim-safe -commits c p1",
        r#"run Some("c") None 1000000000 p1 ["p1"] None 0 None 0"#,
    ),
    (
        "sim-safe -trace t p1",
        r#"run None Some("t") 1000000000 p1 ["p1"] None 0 None 0"#,
    ),
    (
        "sim-safe -max:inst 0 p1",
        r#"run None None 0 p1 ["p1"] None 0 None 0"#,
    ),
    (
        "sim-safe -max:inst 1000000000000 p1 a",
        r#"run None None 1000000000000 p1 ["p1", "a"] None 0 None 0"#,
    ),
    (
        "sim-safe -commits c -trace t -max:inst 17 p1",
        r#"run Some("c") Some("t") 17 p1 ["p1"] None 0 None 0"#,
    ),
    (
        "sim-safe -commits -trace -trace -commits p1",
        r#"run Some("-trace") Some("-commits") 1000000000 p1 ["p1"] None 0 None 0"#,
    ),
    (
        "sim-safe p1 -commits",
        r#"run None None 1000000000 p1 ["p1", "-commits"] None 0 None 0"#,
    ),
    (
        "sim-safe -trace t -commits c p1",
        r#"run Some("c") Some("t") 1000000000 p1 ["p1"] None 0 None 0"#,
    ),
    (
        "sim-safe -max:inst 1 -commits c p1",
        r#"run Some("c") None 1 p1 ["p1"] None 0 None 0"#,
    ),
    (
        "sim-safe -fastfwd 0 p1",
        r#"run None None 1000000000 p1 ["p1"] None 0 None 0"#,
    ),
    (
        "sim-safe -fastfwd 1 p1",
        r#"run None None 1000000000 p1 ["p1"] None 1 None 0"#,
    ),
    (
        "sim-safe -chkpt q 1 p1",
        r#"run None None 1000000000 p1 ["p1"] None 0 Some("q") 1"#,
    ),
    (
        "sim-safe -restart q p1",
        r#"run None None 1000000000 p1 ["p1"] Some("q") 0 None 0"#,
    ),
    (
        "sim-safe -max:inst 4 -chkpt r 3 -fastfwd 2 -commits c -trace t -restart q p1",
        r#"run Some("c") Some("t") 4 p1 ["p1"] Some("q") 2 Some("r") 3"#,
    ),
    ("sim-safe -restart q p1 x", "words 4 Extra"),
    ("sim-safe -restart q", "words 3 NoObject"),
    ("sim-safe -chkpt p1 1000000000001 p1", "words 3 Range"),
    ("sim-safe -commits c -chkpt c 1 p1", "words 7 Clash"),
    (
        "sim-safe -restart q -commits c -chkpt c 1 p1",
        "words 9 Clash",
    ),
    ("record -o t p1", r#"record t None [] 1000000000 p1 ["p1"]"#),
    (
        "record -o -in -in -o p1 x",
        r#"record -in Some("-o") [] 1000000000 p1 ["p1", "x"]"#,
    ),
    (
        "record -o t -in i -file a -file b -max:inst 5 p1",
        r#"record t Some("i") ["a", "b"] 5 p1 ["p1"]"#,
    ),
    (
        "record -o t -file a -file a -file -file -file d -file e -file f -file g -file h p1",
        r#"record t None ["a", "a", "-file", "d", "e", "f", "g", "h"] 1000000000 p1 ["p1"]"#,
    ),
    (
        "record -in i -o t p1",
        r#"record t Some("i") [] 1000000000 p1 ["p1"]"#,
    ),
    (
        "record -o t -file a -in i p1",
        r#"record t Some("i") ["a"] 1000000000 p1 ["p1"]"#,
    ),
    ("asm s o", "asm s o"),
    ("asm s -o", "asm s -o"),
    ("dis p1", "dis p1"),
    ("sim-cache p1", "not built"),
    ("sim-bpred -x", "not built"),
    ("sim-outorder", "not built"),
    ("bench 1", "not built"),
];

#[test]
fn words_ask_for_what_they_say(rt: HostRuntime) {
    let agree = ASKED
        .iter()
        .all(|(line, want)| asks_for(rt.alloc(), line, want));
    assert!(rt; agree);
}

/// The words of a line, the last of which has so many further letters.
fn longer(alloc: Global, line: &str, length: usize) -> Result<Vec<String>, AllocError> {
    let mut words = words_of(alloc, line)?;
    if let Some(last) = words.last_mut() {
        for _ in 0..length {
            last.push('a')?;
        }
    }
    Ok(words)
}

/// The place at which the start block of a line is too long whose last word has so many further
/// letters, if it is.
fn too_long_at(alloc: Global, line: &str, length: usize) -> Option<u32> {
    let Ok(words) = longer(alloc, line, length) else {
        return None;
    };
    match read_words(alloc, &words) {
        Err(
            WordFault::Bad {
                at,
                why: WordWhy::TooLong,
            },
        ) => Some(at),
        _ => None,
    }
}

/// Besides the second argument's bytes the block has 24: the number of arguments, two pointers, two
/// zeros, `p1` with its zero, and the zero behind the second argument.
#[test]
fn start_blocks_have_at_most_16384_bytes(rt: HostRuntime) {
    let (run, recording) = ("sim-safe p1 ", "record -o t p1 ");
    let agree = too_long_at(rt.alloc(), run, 16360).is_none()
        && too_long_at(rt.alloc(), run, 16361) == Some(1)
        && too_long_at(rt.alloc(), recording, 16360).is_none()
        && too_long_at(rt.alloc(), recording, 16361) == Some(3)
        && too_long_at(rt.alloc(), "sim-safe -restart q p", 16500).is_none();
    assert!(rt; agree);
}
