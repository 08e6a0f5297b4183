//! The command that words name, done over any outside.
ghost use Rattle.std.specs.Prelude.{◌≡◌, ◌^◌, ◌<◌, true, Ok, Some, length, map, string_bytes};
ghost use Rattle.journal.specs.Parts.{parts_view, parts_of};
ghost use Rattle.sim_opts.specs.Options.{said_in};
ghost use Rattle.sim_opts.specs.Words.{is_unbuilt};
ghost use Rattle.sim_opts.specs.Request.{Starts, CanBegin, asked, configured};
ghost use Rattle.sim_opts.specs.Borrowed.{request_in};
ghost use Rattle.sim_main.specs.Outcome.{not_built};
ghost use Rattle.sim_main.specs.Answer.{ComesByWords};
ghost use Rattle.sim_main.specs.Parts.{ComesByRequest, ComesBySaid};

use answers::{Answer, Refusal, Unbuilt, refuse, refuse_long};
use journal::{Borrowed, Fault, Found, Outside, find_file};
use object_commands::{asm, dis};
use run_commands::{record, sim_safe};
use sim_opts::{Options, Request, is_unbuilt, read_config, read_words};
use ss_base::{Shelf, Sink};
use std::alloc::Global;

/// The longest configuration, in bytes.
const CONFIG_LIMIT: u64 = 65_536;

/// The answer to what is not built.
fn not_built() -> Answer
    ensures { result ≡ not_built.ending }
{
    Answer::NotBuilt {
        what: Unbuilt::Words,
    }
}

/// Does what is asked for.
fn do_request<O: Outside>(
    alloc: Global,
    request: Request<'_>,
    outside: &mut O,
) -> Result<Answer, Fault>
    requires { Starts (request_in request) }
    ensures { ComesByRequest O.view outside.old (request_in request.entry) outside.new result }
{
    match request {
        Request::SimSafe(request) => sim_safe(alloc, request, outside),
        Request::Record(request) => record(alloc, request, outside),
        Request::Asm { source, object } => asm(alloc, source, object, outside),
        Request::Dis { object } => dis(alloc, object, outside),
        Request::Words { at, why } => {
            refuse(alloc, Refusal::Answer(Answer::Words { at, why }), outside)
        }
        Request::NotBuilt => Ok(not_built()),
    }
}

/// Does what options ask for that so many words and their configuration say.
fn do_asked<O: Outside>(
    alloc: Global,
    words: usize,
    options: &Options,
    outside: &mut O,
) -> Result<Answer, Fault>
    requires { CanBegin (said_in options.now) }
    ensures { ComesByRequest O.view outside.old (asked words (said_in options.now)) outside.new result }
{
    match options.request(alloc, words) {
        Ok(request) => do_request(alloc, request, outside),
        Err(_) => Err(Fault::OutOfMemory),
    }
}

/// Does what options ask for with the text of their configuration.
fn do_configured<O: Outside>(
    alloc: Global,
    words: usize,
    options: Options,
    text: &[u8],
    outside: &mut O,
) -> Result<Answer, Fault>
    requires start { CanBegin (said_in options) }
    requires short { length text.now < 2 ^ 32 }
    ensures { ComesByRequest O.view outside.old (configured words (said_in options) (Some text.now)) outside.new result }
{
    let mut options = options;
    match read_config(alloc, text, &mut options) {
        Ok(()) => do_asked(alloc, words, &options, outside),
        Err(fault) => refuse(alloc, Refusal::from(fault), outside),
    }
}

/// Loads the configuration that options name, if they name one, and does what is asked for with it.
fn do_options<O: Outside>(
    alloc: Global,
    words: usize,
    options: Options,
    outside: &mut O,
) -> Result<Answer, Fault>
    requires { CanBegin (said_in options) }
    ensures { ComesBySaid O.view outside.old words (said_in options) outside.new result }
{
    let Some(name) = &options.config else {
        return do_asked(alloc, words, &options, outside);
    };
    match find_file(alloc, name.as_str(), CONFIG_LIMIT, outside) {
        Ok(Found::Whole(text)) => do_configured(alloc, words, options, text.as_slice(), outside),
        Ok(Found::TooLong) => refuse_long(alloc, name.as_str(), outside),
        Err(fault) => Err(fault),
    }
}

/// Does what words ask for.
pub fn do_words<O: Outside>(
    alloc: Global,
    words: &[String],
    outside: &mut O,
) -> Result<Answer, Fault>
    ensures comes { ComesByWords O.view outside.old (map string_bytes words.now) outside.new result }
    ensures unbuilt { is_unbuilt (map string_bytes words.now) ≡ true → result ≡ Ok not_built.ending }
{
    if is_unbuilt(words) {
        return Ok(not_built());
    }
    match read_words(alloc, words) {
        Ok(options) => do_options(alloc, words.len(), options, outside),
        Err(fault) => refuse(alloc, Refusal::from(fault), outside),
    }
}

/// The same over what is borrowed.
fn do_borrowed<H: Shelf, P: Sink, R: Sink>(
    alloc: Global,
    words: &[String],
    outside: &mut Borrowed<'_, '_, '_, H, P, R>,
) -> Result<Answer, Fault>
    ensures same { (outside.new.shelf.ghost_name ≡ outside.old.shelf.ghost_name) × (outside.new.prog.ghost_name ≡ outside.old.prog.ghost_name) × (outside.new.stat.ghost_name ≡ outside.old.stat.ghost_name) }
    ensures comes { ComesByWords (parts_view H.tells H.calm H.files H.faults P.tells P.contents P.faults P.calm R.tells R.contents R.faults R.calm) (parts_of outside.old) (map string_bytes words.now) (parts_of outside.new) result }
    ensures unbuilt { is_unbuilt (map string_bytes words.now) ≡ true → result ≡ Ok not_built.ending }
{
    do_words(alloc, words, outside)
}

/// The same over a shelf and two streams.
pub fn do_parts<H: Shelf, P: Sink, R: Sink>(
    alloc: Global,
    words: &[String],
    shelf: &mut H,
    prog: &mut P,
    stat: &mut R,
) -> Result<Answer, Fault>
    ensures comes { ComesByWords (parts_view H.tells H.calm H.files H.faults P.tells P.contents P.faults P.calm R.tells R.contents R.faults R.calm) (shelf.old, prog.old, stat.old) (map string_bytes words.now) (shelf.new, prog.new, stat.new) result }
    ensures unbuilt { is_unbuilt (map string_bytes words.now) ≡ true → result ≡ Ok not_built.ending }
{
    let mut outside = Borrowed { shelf, prog, stat };
    do_borrowed(alloc, words, &mut outside)
}
