//! Words that are read, and the first wrong place of those that are not.
use crate::asked::{WordFault, read_words};
use crate::options::Options;
use crate::words::WordWhy;
use ss_base::Name;
use std::alloc::{AllocError, Global};

/// The words of a line, which one blank parts: where two stand together, there is an empty word.
pub(crate) fn words_of(alloc: Global, line: &str) -> Result<Vec<String>, AllocError> {
    let mut words = Vec::new(alloc);
    for word in line.split(' ') {
        words.push(String::from_str(alloc, word)?)?;
    }
    Ok(words)
}

/// The text of a name, or `-`.
fn text_of(name: &Option<Name>) -> &str {
    match name {
        Some(name) => name.as_str(),
        None => "-",
    }
}

/// The text and the number of a point, or `-`.
fn point_of(point: &Option<(Name, u64)>) -> (&str, u64) {
    match point {
        Some((name, number)) => (name.as_str(), *number),
        None => ("-", 0),
    }
}

/// Options as a line: config, trace, restart, commits, chkpt, out, input, source, files, numbers, the
/// options that stood, object and arguments.
pub(crate) fn line_of(alloc: Global, o: &Options) -> Result<String, AllocError> {
    let (config, trace, restart) = (text_of(&o.config), text_of(&o.trace), text_of(&o.restart));
    let (commits, out, input) = (text_of(&o.commits), text_of(&o.out), text_of(&o.input));
    let (point, after) = point_of(&o.chkpt);
    let (source, object) = (text_of(&o.source), o.object.as_str());
    let (files, args, given) = (o.files.as_slice(), o.args.as_slice(), o.given.as_slice());
    let (most, skipped) = (o.max_inst, o.fastfwd);
    format!(in alloc;
        "{config} {trace} {restart} {commits} {point} {after} {out} {input} {source} {files:?} {most} {skipped} {given:?} {object} {args:?}"
    )
}

/// Whether a line says this.
fn says(alloc: Global, line: &str, want: &str) -> bool {
    let Ok(words) = words_of(alloc, line) else {
        return false;
    };
    let Ok(options) = read_words(alloc, &words) else {
        return false;
    };
    match line_of(alloc, &options) {
        Ok(line) => line.as_str() == want,
        Err(_) => false,
    }
}

/// Whether a line is refused at this place for this reason.
fn is_refused(alloc: Global, line: &str, at: u32, why: WordWhy) -> bool {
    let Ok(words) = words_of(alloc, line) else {
        return false;
    };
    match read_words(alloc, &words) {
        Ok(_) => false,
        Err(fault) => fault == WordFault::Bad { at, why },
    }
}

/// Lines, and what they say.
const SAID: [(&str, &str); 15] = [
    (
        "sim-safe p1",
        r#"- - - - - 0 - - - [] 1000000000 0 [] p1 ["p1"]"#,
    ),
    (
        "sim-safe p1 -trace  x",
        r#"- - - - - 0 - - - [] 1000000000 0 [] p1 ["p1", "-trace", "", "x"]"#,
    ),
    (
        "sim-safe -max:inst 0 -commits c p1 a",
        r#"- - - c - 0 - - - [] 0 0 [3, 6] p1 ["p1", "a"]"#,
    ),
    (
        "sim-safe -trace -commits p1",
        r#"- -commits - - - 0 - - - [] 1000000000 0 [1] p1 ["p1"]"#,
    ),
    (
        "sim-safe -fastfwd 1000000000000 -chkpt q 17 -config f -restart r -trace t p1",
        r#"f t r - q 17 - - - [] 1000000000 1000000000000 [0, 1, 2, 5, 8] p1 ["p1"]"#,
    ),
    (
        "sim-safe -chkpt -chkpt 0 p1",
        r#"- - - - -chkpt 0 - - - [] 1000000000 0 [5] p1 ["p1"]"#,
    ),
    (
        "sim-safe -restart q p1",
        r#"- - q - - 0 - - - [] 1000000000 0 [2] p1 ["p1"]"#,
    ),
    (
        "record -o t p1",
        r#"- - - - - 0 t - - [] 1000000000 0 [9] p1 ["p1"]"#,
    ),
    (
        "record -file b -in i -file a -o t -max:inst 5 p1 x",
        r#"- - - - - 0 t i - ["b", "a"] 5 0 [6, 9, 10, 11] p1 ["p1", "x"]"#,
    ),
    (
        "record -file 1 -file 2 -file 3 -file 4 -file 5 -file 6 -file 7 -file 8 -o t p1",
        r#"- - - - - 0 t - - ["1", "2", "3", "4", "5", "6", "7", "8"] 1000000000 0 [9, 11] p1 ["p1"]"#,
    ),
    ("asm s o", r#"- - - - - 0 - - s [] 1000000000 0 [] o []"#),
    ("asm s -o", r#"- - - - - 0 - - s [] 1000000000 0 [] -o []"#),
    ("dis p1", r#"- - - - - 0 - - - [] 1000000000 0 [] p1 []"#),
    (
        "sim-safe -max:inst 1000000000000 p1",
        r#"- - - - - 0 - - - [] 1000000000000 0 [6] p1 ["p1"]"#,
    ),
    (
        "record -o t p1 -o",
        r#"- - - - - 0 t - - [] 1000000000 0 [9] p1 ["p1", "-o"]"#,
    ),
];

/// Lines, their first wrong places, and the reasons.
const REFUSED: [(&str, u32, WordWhy); 83] = [
    ("", 0, WordWhy::Command),
    ("simsafe p1", 0, WordWhy::Command),
    ("-commits c p1", 0, WordWhy::Command),
    ("ptcheck p1", 0, WordWhy::Command),
    ("cheetah p1", 0, WordWhy::Command),
    ("dlite p1", 0, WordWhy::Command),
    ("--help", 0, WordWhy::Command),
    ("sim-cache p1", 0, WordWhy::Command),
    ("SIM-SAFE p1", 0, WordWhy::Command),
    ("sim-safe -x p1", 1, WordWhy::Option),
    ("sim-safe - p1", 1, WordWhy::Option),
    ("sim-safe --version", 1, WordWhy::Option),
    ("sim-safe -Trace t p1", 1, WordWhy::Option),
    ("sim-safe -fastfwd:warm true p1", 1, WordWhy::Option),
    ("sim-safe -x -max:inst", 1, WordWhy::Option),
    ("record -speed 3 p1", 1, WordWhy::Option),
    ("asm -x s o", 1, WordWhy::Option),
    ("dis -5", 1, WordWhy::Option),
    ("dis -p1", 1, WordWhy::Option),
    ("asm -s o", 1, WordWhy::Option),
    ("sim-safe -p1", 1, WordWhy::Option),
    ("sim-safe -commits c -p1", 3, WordWhy::Option),
    ("sim-safe -commits c -5 p1", 3, WordWhy::Option),
    ("sim-safe -ptrace t p1", 1, WordWhy::NotHere),
    ("sim-safe -o t p1", 1, WordWhy::NotHere),
    ("sim-safe -in", 1, WordWhy::NotHere),
    ("sim-safe -file f p1", 1, WordWhy::NotHere),
    ("sim-safe -max:cycles x p1", 1, WordWhy::NotHere),
    ("sim-safe -cache:il1 none p1", 1, WordWhy::NotHere),
    ("sim-safe -res:memport 1 p1", 1, WordWhy::NotHere),
    ("sim-safe -cache:fill 1 p1", 1, WordWhy::NotHere),
    ("sim-safe -issue:inorder true p1", 1, WordWhy::NotHere),
    ("sim-safe -issue:wrongpath true p1", 1, WordWhy::NotHere),
    ("record -o t -trace u p1", 3, WordWhy::NotHere),
    ("record -config c p1", 1, WordWhy::NotHere),
    ("asm -o s o", 1, WordWhy::NotHere),
    ("dis -max:inst 5 p1", 1, WordWhy::NotHere),
    ("sim-safe -commits c -commits d p1", 3, WordWhy::Twice),
    ("sim-safe -max:inst 1 -trace t -max:inst", 5, WordWhy::Twice),
    (
        "record -file 1 -file 2 -file 3 -file 4 -file 5 -file 6 -file 7 -file 8 -file 9 p1",
        17,
        WordWhy::Twice,
    ),
    (
        "record -o t -file a -file b -file c -file d -file e -file f -file g -file h -file i p1",
        19,
        WordWhy::Twice,
    ),
    ("sim-safe -max:inst", 2, WordWhy::Missing),
    ("sim-safe -commits", 2, WordWhy::Missing),
    ("sim-safe -chkpt", 2, WordWhy::Missing),
    ("sim-safe -chkpt c", 3, WordWhy::Missing),
    ("record -file", 2, WordWhy::Missing),
    ("record p1", 2, WordWhy::Missing),
    ("record -in i p1 x y", 6, WordWhy::Missing),
    ("sim-safe -max:inst x p1", 2, WordWhy::Number),
    ("sim-safe -max:inst 00 p1", 2, WordWhy::Number),
    ("sim-safe -max:inst 01 p1", 2, WordWhy::Number),
    ("sim-safe -max:inst 10000000000000 p1", 2, WordWhy::Number),
    ("sim-safe -max:inst +1 p1", 2, WordWhy::Number),
    ("sim-safe -max:inst -1 p1", 2, WordWhy::Number),
    ("sim-safe -max:inst 1x p1", 2, WordWhy::Number),
    ("sim-safe -max:inst  p1", 2, WordWhy::Number),
    ("sim-safe -fastfwd 10000000000000 p1", 2, WordWhy::Number),
    ("sim-safe -chkpt c d p1", 3, WordWhy::Number),
    ("sim-safe -max:inst 1000000000001 p1", 2, WordWhy::Range),
    ("sim-safe -fastfwd 9999999999999 p1", 2, WordWhy::Range),
    ("sim-safe -chkpt c 1000000000001 p1", 3, WordWhy::Range),
    ("sim-safe -commits  p1", 2, WordWhy::Form),
    ("sim-safe -trace  p1", 2, WordWhy::Form),
    ("record -o  p1", 2, WordWhy::Form),
    ("record -o t -in  p1", 4, WordWhy::Form),
    ("record -o t -file  p1", 4, WordWhy::Form),
    ("record -o t -file a -file  p1", 6, WordWhy::Form),
    ("dis ", 1, WordWhy::Form),
    ("sim-safe -chkpt  x p1", 2, WordWhy::Form),
    ("record -o  -o t p1", 2, WordWhy::Form),
    ("sim-safe ", 1, WordWhy::Form),
    ("record -o t ", 3, WordWhy::Form),
    ("asm  o", 1, WordWhy::Form),
    ("asm s ", 2, WordWhy::Form),
    ("sim-safe", 1, WordWhy::NoObject),
    ("sim-safe -commits c", 3, WordWhy::NoObject),
    ("record", 1, WordWhy::NoObject),
    ("record -o t", 3, WordWhy::NoObject),
    ("asm s", 2, WordWhy::NoObject),
    ("dis", 1, WordWhy::NoObject),
    ("sim-safe -restart q p1 x", 4, WordWhy::Extra),
    ("asm s o x", 3, WordWhy::Extra),
    ("dis p1 x", 2, WordWhy::Extra),
];

/// Whether each of these lines says this.
fn all_say(alloc: Global, rows: &[(&str, &str)]) -> bool {
    rows.iter().all(|(line, want)| says(alloc, line, want))
}

/// Whether each of these lines is refused so.
fn all_are_refused(alloc: Global, rows: &[(&str, u32, WordWhy)]) -> bool {
    rows.iter()
        .all(|(line, at, why)| is_refused(alloc, line, *at, *why))
}

#[test]
fn words_say_what_is_asked_or_where_they_are_wrong(rt: HostRuntime) {
    let nothing = match read_words(rt.alloc(), &[]) {
        Ok(_) => false,
        Err(fault) => {
            fault
                == WordFault::Bad {
                    at: 0,
                    why: WordWhy::NoCommand,
                }
        }
    };
    let agree = nothing && all_say(rt.alloc(), &SAID) && all_are_refused(rt.alloc(), &REFUSED);
    assert!(rt; agree);
}
