ghost use Rattle.std.specs.Prelude.{◌≡◌, ◌≢◌, ◌⊎◌, None, Some, codes, map, true, false};
ghost use Rattle.command_line.specs.Line.{Asked, asked_in};
ghost use Rattle.command_line.specs.Rows.{asked_of};
ghost use Rattle.handlers.specs.FaultText.{TakesOrFails, refusal_line};
ghost use Rattle.progress.specs.Watched.{inner};
ghost use Rattle.arcwcet.specs.Announced.{reads_announced, shows_lines, writes_announced};
ghost use Rattle.arcwcet.specs.Files.{ReadsAll, Texts, inputs_of, names_of, others_in};
ghost use Rattle.arcwcet.specs.Kept.{inputs_lent};
ghost use Rattle.arcwcet.specs.Refusals.{Says};
ghost use Rattle.arcwcet.specs.Reports.{report_of};
ghost use Rattle.arcwcet.specs.Run.{HasAnswered, RunsAsked, RunsAsm, RunsImport};

use crate::announced::AnnouncedStore;
use crate::diagnose::{alone_status, answered_status};
use crate::files::{Store, dialect_of, read_files, read_limited};
use crate::import::{image_imported, refused_status};
use crate::input::Input;
use crate::reports::{Job, print};
use crate::status::{line_status, report_status, store_status, unread_status};
use command_line::{Command, Request, request};
use handlers::ReportFault;
use outputs::{Output, write_whole};
use progress::WatchedOutput;
use source_reports::image_written;
use std::alloc::Global;

// Prints the report of a job, with the commands that were typed for `debug`, or why there is none.
fn run_report<O: Output, E: Output>(
    alloc: Global,
    job: Job<'_, '_>,
    typed: &[u8],
    out: &mut O,
    err: &mut E,
) -> u8
    requires { (asked_of job.request.now).command ≢ Command.Import }
    ensures ran { let asked = asked_of job.entry.request.now in
        HasAnswered O.taken O.failures (Says E.taken E.failures asked err.old err.new)
        (report_of asked (inputs_lent job.entry.inputs) typed.now) out.old out.new result }
    ensures silent { result ≡ 0 → err.new ≡ err.old }
{
    let answer = print(alloc, job, typed, out);
    answered_status(alloc, job, &answer, err)
}

// `asm`: writes the image's file, and prints its size.
fn run_asm<S: Store, O: Output, E: Output>(
    alloc: Global,
    job: Job<'_, '_>,
    store: &mut S,
    out: &mut O,
    err: &mut E,
) -> u8
    ensures ran { let asked = asked_of job.entry.request.now in
        (old : S) (files : Texts) → ReadsAll S.read_gives old (names_of asked) files store.old
        → inputs_lent job.entry.inputs ≡ inputs_of asked files → asked.command ≡ Command.Asm
        → RunsAsm S.read_gives S.write_gives O.taken O.failures
        (Says E.taken E.failures asked err.old err.new) asked old store.new out.old out.new result }
    ensures silent { result ≡ 0 → err.new ≡ err.old }
{
    let written = match image_written(alloc, job.inputs.source) {
        Ok(written) => written,
        Err(fault) => return alone_status(alloc, job, fault, err),
    };
    if let Err(fault) = store.write(job.request.word, &written.bytes) {
        return store_status(fault, err);
    }
    match write_whole(out, written.line.as_bytes()) {
        Ok(()) => 0,
        Err(_) => report_status(ReportFault::Device, err),
    }
}

// What `import` is asked for, and the bytes of its files.
#[derive(Clone, Copy)]
struct ImportJob<'b, 'a> {
    request: &'b Request<'a>,
    files: &'b [Vec<u8>],
}

// `import`: writes the image's file, and prints its size.
fn run_import<S: Store, O: Output, E: Output>(
    alloc: Global,
    job: ImportJob<'_, '_>,
    store: &mut S,
    out: &mut O,
    err: &mut E,
) -> u8
    ensures ran { let asked = asked_of job.entry.request.now in
        (old : S) (files : Texts) → ReadsAll S.read_gives old (names_of asked) files store.old
        → map (λ v. v.items) job.entry.files.now ≡ others_in asked.profile files
        → RunsImport S.read_gives S.write_gives O.taken O.failures
        (Says E.taken E.failures asked err.old err.new) asked old store.new out.old out.new result }
    ensures silent { result ≡ 0 → err.new ≡ err.old }
{
    let made = match image_imported(alloc, &job.request.places, job.files) {
        Ok(made) => made,
        Err(fault) => return refused_status(fault, job.request, err),
    };
    if let Err(fault) = store.write(job.request.word, &made.bytes) {
        return store_status(fault, err);
    }
    match write_whole(out, made.line.as_bytes()) {
        Ok(()) => 0,
        Err(_) => report_status(ReportFault::Device, err),
    }
}

// Reads the files of what is asked, in their order, and does it.
fn obey<S: Store, I: Input, O: Output, E: Output>(
    alloc: Global,
    asked: Request<'_>,
    store: &mut S,
    input: &mut I,
    out: &mut O,
    err: &mut E,
) -> u8
    ensures done { RunsAsked S.read_gives S.write_gives I.remaining I.failures O.taken O.failures
        (Says E.taken E.failures (asked_of asked.entry) err.old err.new) (asked_of asked.entry)
        store.old store.new input.old input.new out.old out.new result }
    ensures silent { result ≡ 0 → err.new ≡ err.old }
{
    let files = match read_files(alloc, &asked, store) {
        Ok(files) => files,
        Err(unread) => return unread_status(unread, &asked, &*store, err),
    };
    let command = asked.command;
    let job = Job {
        request: &asked,
        inputs: files.inputs(dialect_of(asked.dialect)),
    };
    match command {
        Command::Asm => run_asm(alloc, job, store, out, err),
        Command::Import => {
            let import = ImportJob {
                request: &asked,
                files: files.others(),
            };
            run_import(alloc, import, store, out, err)
        }
        Command::Debug => match read_limited(alloc, input) {
            Ok(typed) => run_report(alloc, job, &typed, out, err),
            Err(fault) => store_status(fault, err),
        },
        _ => run_report(alloc, job, &[], out, err),
    }
}

/// Runs the program on its words, of which the first is its name, and answers its exit status: 0; 1 where the
/// work is refused, a certificate's verdict is No, a bound or a response is more than is wanted, a handler
/// with visits never ends, a machine stopped, or a run does not keep its statement; 2 for wrong usage; 3 for
/// lack of memory; 4 where a file, a stream or the output fails.
///
/// A refusal is one line on `err`, after which `explain`, and with `--why` each other command, prints what
/// shows why; failures of `err` change no status. The work begins once everything is read: a cycle profile's
/// file, the others as the words name them, then for `debug` alone standard input, each up to
/// [`MOST_INPUT_BYTES`](crate::MOST_INPUT_BYTES); a longer one is refused with status 1. No memory is taken
/// once the words are refused. With `--version` or `-V` alone it prints its name and version.
pub fn program<S: Store, I: Input, O: Output, E: Output>(
    alloc: Global,
    words: &[String],
    store: &mut S,
    input: &mut I,
    out: &mut O,
    err: &mut E,
) -> u8
    // Words that ask for nothing are wrong usage, and no others are, unless memory runs out.
    ensures usage { asked_in words.now ≡ None
        → ((result ≡ 2) ⊎ ((result ≡ 3)
        × TakesOrFails E.taken E.failures err.old err.new (refusal_line (codes "Memory"))))
        × (out.new ≡ out.old) × (store.new ≡ store.old) × (input.new ≡ input.old) }
    ensures no_usage { asked_in words.now ≢ None → result ≢ 2 }

    // What the words ask for was done, and standard error says what was refused.
    ensures done { (asked : Asked) → asked_in words.now ≡ Some asked
        → RunsAsked S.read_gives S.write_gives I.remaining I.failures O.taken O.failures
        (Says E.taken E.failures asked err.old err.new) asked store.old store.new input.old input.new
        out.old out.new result }

    // Nothing is printed on standard error at 0.
    ensures silent { result ≡ 0 → err.new ≡ err.old }
{
    let asked = match request(alloc, words) {
        Ok(asked) => asked,
        Err(fault) => return line_status(fault, err),
    };
    obey(alloc, asked, store, input, out, err)
}

// Whether lines on what is being done are shown.
fn shows_lines<S: Store, L: Output>(asked: &Request<'_>, store: &AnnouncedStore<S, L>) -> bool
    ensures { result ≡ shows_lines (asked_of asked.now) store.now }
{
    asked.progress || store.unasked
}

/// Runs the program as [`program`] does, and shows what is being done where the words ask for it by
/// `--progress`, or the store shows it unasked: a line with its name before a file is read, and one where
/// each 16 MiB of what is printed begin. Where these lines are lost, nothing else changes. Else there are
/// none.
pub fn shown_program<S: Store, I: Input, O: Output, E: Output, L: Output>(
    alloc: Global,
    words: &[String],
    store: &mut AnnouncedStore<S, L>,
    input: &mut I,
    out: &mut WatchedOutput<O, L>,
    err: &mut E,
) -> u8
    // Words that ask for nothing are wrong usage, and no others are, unless memory runs out.
    ensures usage { asked_in words.now ≡ None
        → ((result ≡ 2) ⊎ ((result ≡ 3)
        × TakesOrFails E.taken E.failures err.old err.new (refusal_line (codes "Memory"))))
        × (out.new ≡ out.old) × (store.new ≡ store.old) × (input.new ≡ input.old) }
    ensures no_usage { asked_in words.now ≢ None → result ≢ 2 }

    // What the words ask for was done, with a line for each file that was read.
    ensures shown { (asked : Asked) → asked_in words.now ≡ Some asked → shows_lines asked store.old ≡ true
        → RunsAsked (reads_announced L.taken L.failures S.read_gives) (writes_announced S.write_gives)
        I.remaining I.failures (inner O.taken) (inner O.failures)
        (Says E.taken E.failures asked err.old err.new) asked store.old store.new input.old input.new
        out.old out.new result }

    // Where neither asks for lines the same was done, and none was shown.
    ensures unshown { (asked : Asked) → asked_in words.now ≡ Some asked → shows_lines asked store.old ≡ false
        → RunsAsked S.read_gives S.write_gives I.remaining I.failures O.taken O.failures
        (Says E.taken E.failures asked err.old err.new) asked store.old.store store.new.store input.old
        input.new out.old.out out.new.out result
        × (store.new.lines ≡ store.old.lines) × (out.new.lines ≡ out.old.lines) }

    // Nothing but these lines is printed on standard error at 0.
    ensures silent { result ≡ 0 → err.new ≡ err.old }
{
    let asked = match request(alloc, words) {
        Ok(asked) => asked,
        Err(fault) => return line_status(fault, err),
    };
    let shown = shows_lines(&asked, store);
    if shown {
        return obey(alloc, asked, store, input, out, err);
    }
    obey(alloc, asked, &mut store.store, input, &mut out.out, err)
}
