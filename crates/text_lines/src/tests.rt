//! Lines and words of some texts.
use crate::lines::{are_allowed, next_line};
use crate::words::{before_comment, next_word};
use std::alloc::{AllocError, Global};

/// The words of all lines of a text, each in brackets, and a bar behind each line.
fn shown(alloc: Global, text: &str) -> Result<Vec<u8>, AllocError> {
    let mut line_words = Vec::new(alloc);
    let mut rest = text.as_bytes();
    'lines: while rest.len() > 0 {
        let (line, others) = next_line(rest);
        push_words(&mut line_words, before_comment(line))?;
        line_words.push(b'|')?;
        rest = others;
    }
    Ok(line_words)
}

/// Adds the words of a line, each in brackets.
fn push_words(into: &mut Vec<u8>, line: &[u8]) -> Result<(), AllocError> {
    let mut rest = line;
    'words: while let Some((word, others)) = next_word(rest) {
        into.push(b'[')?;
        into.extend_from_slice(word)?;
        into.push(b']')?;
        rest = others;
    }
    Ok(())
}

/// Texts, and the words of their lines.
const TEXTS: [(&str, &str); 10] = [
    ("", ""),
    ("\n", "|"),
    ("\n\n", "||"),
    ("a", "[a]|"),
    ("a\n", "[a]|"),
    ("a\n\nb c", "[a]||[b][c]|"),
    (" \t\r a\tbc\r \n", "[a][bc]|"),
    ("a#b c\n#\nd #", "[a]||[d]|"),
    ("  \n", "|"),
    ("a \"b # c\"\n", "[a][\"b]|"),
];

/// Lines, and whether all of their bytes may stand there.
const LINES: [(&str, bool); 7] = [
    ("", true),
    (" \t\r!~", true),
    ("a # ~", true),
    ("a\u{7f}", false),
    ("\u{0b}", false),
    ("# \u{1}", false),
    ("caf\u{e9}", false),
];

/// Whether each text has these words, and each line is allowed or not.
fn agree(alloc: Global) -> Result<bool, AllocError> {
    for (text, want) in &TEXTS {
        if shown(alloc, text)?.as_slice() != want.as_bytes() {
            return Ok(false);
        }
    }
    Ok(
        LINES
            .iter()
            .all(|(line, want)| are_allowed(line.as_bytes()) == *want),
    )
}

#[test]
fn texts_have_these_words(rt: HostRuntime) {
    assert!(rt; matches!(agree(rt.alloc()), Ok(true)));
}
