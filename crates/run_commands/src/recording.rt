//! The command record: an object is run in a closed world, and the calls of the run are recorded.
ghost use Rattle.std.specs.Prelude.{◌≡◌, ◌+◌, ◌^◌, ◌≤◌, ◌∷◌, [], Bool, None, OnOk, IfOk, length, map, string_bytes};
ghost use Rattle.std.specs.Option.{option_copied};
ghost use Rattle.ecoff_load.specs.Object.{IsImage};
ghost use Rattle.ecoff_load.specs.Start.{block};
ghost use Rattle.event_trace.specs.Grammar.{IsTrace};
ghost use Rattle.event_trace.specs.Recorder.{next_count};
ghost use Rattle.event_trace.specs.World.{files_of};
ghost use Rattle.sim_safe.specs.State.{state_of};
ghost use Rattle.sim_safe.specs.Run.{items_of};
ghost use Rattle.sim_watch.specs.Recorded.{made_of};
ghost use Rattle.sim_watch.specs.Watch.{run_journal};
ghost use Rattle.journal.specs.Write.{Append};
ghost use Rattle.journal.specs.View.{Writes};
ghost use Rattle.journal.specs.Outcome.{Comes, Ends};
ghost use Rattle.run_commands.specs.Program.{named_input};
ghost use Rattle.run_commands.specs.Outcome.{input_limit, opened_inputs, ended, recorded_end, trace_text};
ghost use Rattle.run_commands.specs.Parts.{names_in, record_inputs_of, RecordingOutcomeOf, ObjectRecords, GivenRecords, LoadedRecords, made_for, recorded_of, run_end};

use crate::launching::OBJECT_LIMIT;
use crate::world::{Enclosed, enclose};
use answers::{Answer, judge_object, refuse, refuse_long, report_run};
use ecoff_load::StartFault;
use event_trace::{Recorder, write};
use journal::{Fault, Found, FoundEach, Outside, find_each, find_file};
use sim_opts::Record;
use sim_safe::{Arch, RecordEnd, RunEnd};
use sim_watch::watched_record;
use std::alloc::Global;

/// The longest input, and the longest file that a program can open, in bytes.
const INPUT_LIMIT: u64 = 16_777_216;

/// A run ends where so many instructions are done.
const MOST_INSTRUCTIONS: u64 = 1_000_000_000_000_000;

/// The end of a recorded run. One whose trace is full ends as at its budget.
fn run_end(end: RecordEnd) -> RunEnd
    ensures { result ≡ run_end end }
{
    match end {
        RecordEnd::Run(end) => end,
        RecordEnd::Full => RunEnd::Limit,
    }
}

/// Adds the recorded trace to a file.
fn append_trace<O: Outside>(
    alloc: Global,
    recorder: &Recorder,
    out: &str,
    outside: &mut O,
) -> Result<(), Fault>
    ensures valid { IsTrace recorder.now.trace }
    ensures writes { Writes O.view outside.old (Append out.now (trace_text recorder.now.trace) ∷ []) outside.new result }
{
    match write(alloc, recorder.trace()) {
        Ok(bytes) => outside.append(out, bytes.as_slice()),
        Err(_) => Err(Fault::OutOfMemory),
    }
}

/// Does up to `n` steps from a state on, whose calls are recorded, adds the trace to a file, and
/// reports them.
fn record_from<O: Outside>(
    alloc: Global,
    mut arch: Arch,
    mut recorder: Recorder,
    n: u64,
    out: &str,
    outside: &mut O,
) -> Result<Answer, Fault>
    requires count { arch.icnt + n ≤ 10 ^ 15 }
    requires rising { next_count 0 recorder.trace.records ≤ arch.icnt }
    ensures valid { OnOk result (IsTrace (made_of recorder n (state_of arch)).0) }
    ensures ends { let made = made_of recorder n (state_of arch) in
        Ends O.view outside.old (ended made.0 (recorded_end made n (state_of arch)) n (state_of arch) (Append out.now (trace_text made.0) ∷ run_journal None (items_of made.0 n (state_of arch)))) outside.new result }
{
    let run = match watched_record(alloc, &mut arch, &mut recorder, n, outside) {
        Ok(run) => run,
        Err(fault) => return Err(fault),
    };
    match append_trace(alloc, &recorder, out, outside) {
        Ok(()) => {
            let (pc, icnt) = (arch.pc(), arch.icnt());
            report_run(
                alloc,
                run_end(run.end),
                0,
                &run.statistics,
                pc,
                icnt,
                outside,
            )
        }
        Err(fault) => Err(fault),
    }
}

/// Runs the program of a request from its start in its world, with the trace in a file that is made
/// empty first.
fn record_program<O: Outside>(
    alloc: Global,
    program: Enclosed,
    request: &Record<'_>,
    outside: &mut O,
) -> Result<Answer, Fault>
    requires program { IsImage program.image }
    requires fits { (big : Bool) → length (block big (map string_bytes request.now.args.now)) ≤ 16384 }
    ensures valid { OnOk result (IsTrace (made_for request.now program).0) }
    ensures ends { Ends O.view outside.old (recorded_of request.now program) outside.new result }
{
    match outside.start(request.out) {
        Ok(()) => {}
        Err(fault) => return Err(fault),
    }
    let Enclosed { image, world } = program;
    let recorder = Recorder::new(alloc, world, image.text.big);
    match Arch::start(alloc, image, request.args) {
        Ok(arch) => {
            let room = MOST_INSTRUCTIONS.saturating_sub(arch.icnt());
            let n = request.max_inst.min(room);
            record_from(alloc, arch, recorder, n, request.out, outside)
        }
        // words whose start block is too long are refused
        Err(StartFault::TooLong { .. } | StartFault::OutOfMemory) => Err(Fault::OutOfMemory),
    }
}

/// Judges a loaded object, and records its run in the world of the loaded files.
fn record_loaded<O: Outside>(
    alloc: Global,
    object: &[u8],
    input: Vec<u8>,
    files: Vec<(String, Vec<u8>)>,
    request: &Record<'_>,
    outside: &mut O,
) -> Result<Answer, Fault>
    requires { (big : Bool) → length (block big (map string_bytes request.now.args.now)) ≤ 16384 }
    ensures { Comes O.view outside.old [] (λ _. LoadedRecords request.now object.now input.items (files_of files.items) result) outside.new result }
{
    match judge_object(alloc, object) {
        Ok(image) => {
            let program = enclose(alloc, image, input, files);
            record_program(alloc, program, request, outside)
        }
        Err(refusal) => refuse(alloc, refusal, outside),
    }
}

/// Loads the files that the program can open, and records the run of an object.
fn record_given<O: Outside>(
    alloc: Global,
    object: &[u8],
    input: Vec<u8>,
    request: &Record<'_>,
    outside: &mut O,
) -> Result<Answer, Fault>
    requires { (big : Bool) → length (block big (map string_bytes request.now.args.now)) ≤ 16384 }
    ensures { Comes O.view outside.old (opened_inputs (names_in request.now)) (GivenRecords request.now object.now input.items result) outside.new result }
{
    let names = request.files.as_slice();
    match find_each(alloc, names, INPUT_LIMIT, outside) {
        Ok(FoundEach::Whole(files)) => {
            record_loaded(alloc, object, input, files, request, outside)
        }
        Ok(FoundEach::TooLong(at)) => refuse_long(alloc, names[at], outside),
        Err(fault) => Err(fault),
    }
}

/// Loads the input, which is empty where none is named, and goes on with it.
fn record_object<O: Outside>(
    alloc: Global,
    object: &[u8],
    request: &Record<'_>,
    outside: &mut O,
) -> Result<Answer, Fault>
    requires { (big : Bool) → length (block big (map string_bytes request.now.args.now)) ≤ 16384 }
    ensures { Comes O.view outside.old (named_input input_limit (option_copied request.now.input) (opened_inputs (names_in request.now))) (ObjectRecords request.now object.now result) outside.new result }
{
    let Some(name) = request.input else {
        return record_given(alloc, object, Vec::new(alloc), request, outside);
    };
    match find_file(alloc, name, INPUT_LIMIT, outside) {
        Ok(Found::Whole(input)) => {
            record_given(alloc, object, input.into_vec(), request, outside)
        }
        Ok(Found::TooLong) => refuse_long(alloc, name, outside),
        Err(fault) => Err(fault),
    }
}

/// Does what a request asks for, whose start block fits.
pub fn record<O: Outside>(
    alloc: Global,
    request: Record<'_>,
    outside: &mut O,
) -> Result<Answer, Fault>
    requires { (big : Bool) → length (block big (map string_bytes request.args.now)) ≤ 16384 }
    ensures { Comes O.view outside.old (record_inputs_of request.entry) (RecordingOutcomeOf request.entry result) outside.new result }
{
    match find_file(alloc, request.object, OBJECT_LIMIT, outside) {
        Ok(Found::Whole(object)) => record_object(alloc, object.as_slice(), &request, outside),
        Ok(Found::TooLong) => refuse_long(alloc, request.object, outside),
        Err(fault) => Err(fault),
    }
}
