//! The command `asm`: the object of a source.
ghost use Rattle.std.specs.Prelude.{◌≡◌, ◌<◌, ◌^◌, ◌∷◌, [], Ok, IfOk, length};
ghost use Rattle.journal.specs.Load.{input};
ghost use Rattle.journal.specs.Outcome.{Ends, Comes};
ghost use Rattle.pisa_asm.specs.Passes.{CanBeHeld, described};
ghost use Rattle.answers.specs.Judging.{Judges};
ghost use Rattle.object_commands.specs.Outcome.{JudgesSource, AsmOutcome, object_made};

use answers::{Answer, Refusal, refuse, refuse_long};
use ecoff_load::Image;
use journal::{Fault, Found, Outside, find_file};
use pisa_asm::assemble;
use std::alloc::Global;

/// The longest source, in bytes.
pub const SOURCE_LIMIT: u64 = 4_194_304;

/// Judges a source.
fn judge_source(alloc: Global, source: &[u8]) -> Result<Image, Refusal>
    requires { length source.now < 2 ^ 32 }
    ensures judged { Judges result (λ image. described source.now ≡ Ok image) (λ o. JudgesSource (described source.now) o (λ _. ⊥)) }
    ensures image { IfOk result CanBeHeld }
{
    match assemble(alloc, source) {
        Ok(image) => Ok(image),
        Err(fault) => Err(Refusal::from(fault)),
    }
}

/// Writes the object of an image to a file, which is made empty once the bytes are there.
#[tactic(auto, using(journal::specs::Laws::wrote_next, journal::specs::Laws::gave_up_next, journal::specs::Laws::gave_up_before, journal::specs::Laws::gave_up_none))]
fn write_object<O: Outside>(
    alloc: Global,
    image: &Image,
    object: &str,
    outside: &mut O,
) -> Result<Answer, Fault>
    requires { CanBeHeld image.now }
    ensures { Ends O.view outside.old (object_made object.now image.now) outside.new result }
{
    let bytes = match ecoff_load::write(alloc, image) {
        Ok(bytes) => bytes,
        Err(_) => return Err(Fault::OutOfMemory),
    };
    match outside.start(object) {
        Ok(()) => {}
        Err(fault) => return Err(fault),
    }
    match outside.append(object, bytes.as_slice()) {
        Ok(()) => Ok(Answer::Made),
        Err(fault) => Err(fault),
    }
}

/// Goes on where the source was found.
fn assemble_found<O: Outside>(
    alloc: Global,
    source: &[u8],
    object: &str,
    outside: &mut O,
) -> Result<Answer, Fault>
    requires { length source.now < 2 ^ 32 }
    ensures { Comes O.view outside.old [] (λ _ o. JudgesSource (described source.now) o (λ image. o ≡ object_made object.now image)) outside.new result }
{
    match judge_source(alloc, source) {
        Ok(image) => write_object(alloc, &image, object, outside),
        Err(refusal) => refuse(alloc, refusal, outside),
    }
}

/// Makes the file `object` from the file `source`, of at most `SOURCE_LIMIT` bytes.
///
/// The source is loaded and judged whole before anything is written. `docs/assembler.md` says what a
/// source means.
pub fn asm<O: Outside>(
    alloc: Global,
    source: &str,
    object: &str,
    outside: &mut O,
) -> Result<Answer, Fault>
    ensures { Comes O.view outside.old (input source.now SOURCE_LIMIT ∷ []) (AsmOutcome source.now object.now) outside.new result }
{
    match find_file(alloc, source, SOURCE_LIMIT, outside) {
        Ok(Found::Whole(bytes)) => assemble_found(alloc, bytes.as_slice(), object, outside),
        Ok(Found::TooLong) => refuse_long(alloc, source, outside),
        Err(fault) => Err(fault),
    }
}
