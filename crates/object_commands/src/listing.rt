//! The command `dis`: an object's instructions as text.
ghost use Rattle.std.specs.Prelude.{◌≡◌, ◌-◌, ◌*◌, ◌≤◌, ◌++◌, ◌∷◌, [], IfOk, OnOk, length};
ghost use Rattle.ecoff_load.specs.Object.{IsText};
ghost use Rattle.pisa_isa.specs.Coding.{decoded};
ghost use Rattle.journal.specs.Load.{input};
ghost use Rattle.journal.specs.Outcome.{Ends, Comes};
ghost use Rattle.answers.specs.Judging.{JudgesObject};
ghost use Rattle.object_commands.specs.Listing.{code_text, line_of, lines_from};
ghost use Rattle.object_commands.specs.Outcome.{DisOutcome, listing_made};

use answers::{Answer, judge_object, push_text, refuse, refuse_long};
use ecoff_load::Text;
use journal::{Fault, Found, Outside, find_file};
use pisa_asm::disassemble;
use pisa_isa::decode;
use ss_base::{OutOfMemory, push_hex};
use std::alloc::Global;

/// The longest object, in bytes.
pub const OBJECT_LIMIT: u64 = 16_777_216;

/// How many lines are put at once. They have at most 75,776 bytes.
const PIECE: u32 = 1024;

/// Adds what two words at `pc` are listed as.
fn push_code(into: &mut Vec<u8>, pc: u32, first: u32, second: u32) -> Result<(), OutOfMemory>
    ensures { OnOk result (into.new.items ≡ into.old.items ++ code_text (decoded first second) pc first second) }
{
    match decode(first, second) {
        Ok(i) => push_text(into, disassemble(&i, pc).as_str()),
        Err(_) => {
            push_text(into, ".illegal ")?;
            push_hex(into, first)?;
            push_text(into, " ")?;
            push_hex(into, second)
        }
    }
}

/// Adds the line of the words at `pc`, if there are any.
fn push_line(into: &mut Vec<u8>, pc: u32, words: Option<(u32, u32)>) -> Result<(), OutOfMemory>
    ensures { OnOk result (into.new.items ≡ into.old.items ++ line_of pc words) }
{
    match words {
        None => Ok(()),
        Some((first, second)) => {
            push_hex(into, pc)?;
            push_text(into, " ")?;
            push_code(into, pc, first, second)?;
            push_text(into, "\n")
        }
    }
}

/// The lines of the instructions whose numbers are at least `from` and below `to`.
fn lines(alloc: Global, text: &Text, from: u32, to: u32) -> Result<Vec<u8>, OutOfMemory>
    requires text { IsText text.now }
    requires order { from ≤ to }
    requires within { 8 * to ≤ length text.now.bytes }
    ensures { IfOk result (λ piece. piece.items ≡ lines_from text.now from (to - from)) }
{
    let mut piece = Vec::new(alloc);
    for k in from..to {
        let pc = text.start + 8 * k;
        push_line(&mut piece, pc, text.at(pc))?;
    }
    Ok(piece)
}

/// Puts a text's listing on the first stream, 1,024 lines at once.
fn list<O: Outside>(alloc: Global, text: &Text, outside: &mut O) -> Result<Answer, Fault>
    requires { IsText text.now }
    ensures { Ends O.view outside.old (listing_made text.now) outside.new result }
{
    let count = (text.bytes.as_slice().len() / 8) as u32;
    for k in 0..count.div_ceil(PIECE) {
        match lines(alloc, text, PIECE * k, count.min(PIECE * k + PIECE)) {
            Ok(piece) => match outside.put_output(piece.as_slice()) {
                Ok(()) => {}
                Err(fault) => return Err(fault),
            },
            Err(_) => return Err(Fault::OutOfMemory),
        }
    }
    Ok(Answer::Made)
}

/// Goes on where the object was found.
fn list_found<O: Outside>(alloc: Global, object: &[u8], outside: &mut O) -> Result<Answer, Fault>
    ensures { Comes O.view outside.old [] (λ _ o. JudgesObject object.now o (λ image. o ≡ listing_made image.text)) outside.new result }
{
    match judge_object(alloc, object) {
        Ok(image) => list(alloc, &image.text, outside),
        Err(refusal) => refuse(alloc, refusal, outside),
    }
}

/// Lists the text of the file `object`, of at most `OBJECT_LIMIT` bytes, on the first stream.
///
/// The object is loaded and judged whole before anything is written. `docs/texts.md` says what a
/// listing looks like.
pub fn dis<O: Outside>(alloc: Global, object: &str, outside: &mut O) -> Result<Answer, Fault>
    ensures { Comes O.view outside.old (input object.now OBJECT_LIMIT ∷ []) (DisOutcome object.now) outside.new result }
{
    match find_file(alloc, object, OBJECT_LIMIT, outside) {
        Ok(Found::Whole(bytes)) => list_found(alloc, bytes.as_slice(), outside),
        Ok(Found::TooLong) => refuse_long(alloc, object, outside),
        Err(fault) => Err(fault),
    }
}
