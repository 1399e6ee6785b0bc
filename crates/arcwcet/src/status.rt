ghost use Rattle.std.specs.Prelude.{◌≡◌, ◌≢◌, ◌⊎◌, Some, codes};
ghost use Rattle.outputs.specs.OnTheWay.{Adds};
ghost use Rattle.handlers.specs.FaultText.{TakesOrFails, fault_text, refusal_line};
ghost use Rattle.command_line.specs.Rows.{asked_of};
ghost use Rattle.arcwcet.specs.Refusals.{Says, TakesSome, shows_why, store_fault_name, unread_line};
ghost use Rattle.arcwcet.specs.Run.{report_status, store_status};

use crate::fault::{StoreFault, file_fault_text, store_fault_name};
use crate::files::{Store, Unread};
use command_line::{Command, CommandLineFault, Request};
use handlers::{FaultPlace, ReportFault, fault_name, fault_place, print_refusal_line};
use outputs::{Output, Page, write_whole};
use std::fmt;
use std::fmt::Write;

// An output as a formatter's writer, which takes no memory.
#[derive(Drop)]
struct Text<'a, O: Output> {
    out: &'a mut O,
}

impl<O: Output> Write for Text<'_, O> {
    fn write_str(&mut self, text: &str) -> fmt::Result {
        match write_whole(self.out, text.as_bytes()) {
            Ok(()) => Ok(()),
            Err(_) => Err(fmt::Error),
        }
    }
}

// Prints the line of a refusal that has no place.
fn print_refused<E: Output>(name: &[u8], err: &mut E)
    ensures { TakesOrFails E.taken E.failures err.old err.new (refusal_line name.now) }
{
    print_refusal_line(name, FaultPlace::Nowhere, err);
}

/// Prints why a line of words asks for nothing, and answers the exit status.
pub(crate) fn line_status<E: Output>(fault: CommandLineFault, err: &mut E) -> u8
    ensures { ((result ≡ 2) × (fault ≢ CommandLineFault.Memory))
        ⊎ ((result ≡ 3) × (fault ≡ CommandLineFault.Memory)
        × TakesOrFails E.taken E.failures err.old err.new (refusal_line (codes "Memory"))) }
{
    match fault {
        CommandLineFault::Memory => {
            print_refused(b"Memory", err);
            3
        }
        CommandLineFault::Usage(error) => {
            let _ = write!(Text { out: err }, "{error}");
            2
        }
        CommandLineFault::UnknownDialect => {
            let _ = write_whole(err, b"error: --dialect takes objasm alone\n");
            2
        }
        CommandLineFault::SourceReplaced => {
            let _ = write_whole(err, b"error: the image would be written over its source\n");
            2
        }
        CommandLineFault::ImportParts => {
            let _ = write_whole(
                err,
                b"error: import needs CODE@ADDRESS .., CODE --at ADDRESS, or an ELF file, and an IMAGE\n",
            );
            2
        }
        CommandLineFault::VisitsOrPeriod => {
            let _ = write_whole(
                err,
                b"error: either K or --every N has to be given, --waited with the latter alone\n",
            );
            2
        }
        CommandLineFault::FiqOptions => {
            let _ = write_whole(
                err,
                b"error: --fiq-statement needs --every and no bursts; --fiq-source and --waited need it\n",
            );
            2
        }
        CommandLineFault::OptionBesideCertificate => {
            let _ = write_whole(err, b"error: --certificate goes with --profile alone\n");
            2
        }
    }
}

/// Prints why a file was not read or written, and answers the exit status.
pub(crate) fn store_status<E: Output>(fault: StoreFault, err: &mut E) -> u8
    ensures status { result ≡ store_status fault }
    ensures says { TakesOrFails E.taken E.failures err.old err.new (refusal_line (store_fault_name fault)) }
{
    print_refused(store_fault_name(fault), err);
    match fault {
        StoreFault::Memory => 3,
        StoreFault::Device => 4,
        StoreFault::InputTooLong => 1,
    }
}

fn put_unread_line<E: Output>(page: &mut Page, name: &str, why: &[u8], err: &mut E)
    ensures { Adds E.taken E.failures err.old page.old err.new page.new (unread_line name.now why.now) }
{
    page.put(err, name.as_bytes());
    page.put(err, b": ");
    page.put(err, why);
    page.put(err, b"\n");
}

// Prints a file's name and why it was not read.
fn print_unread_line<E: Output>(name: &str, why: &[u8], err: &mut E)
    ensures { TakesOrFails E.taken E.failures err.old err.new (unread_line name.now why.now) }
{
    let mut page = Page::new();
    put_unread_line(&mut page, name, why, err);
    let _ = page.finish(err);
}

// Prints the name of a file that was not read, and why it was not.
fn print_unread<S: Store, E: Output>(name: &str, fault: StoreFault, store: &S, err: &mut E)
    ensures { TakesSome (E.taken err.old) (E.taken err.new) }
{
    match fault {
        StoreFault::Memory => {}
        StoreFault::Device => {
            let why = file_fault_text(store.file_fault(name));
            print_unread_line(name, why, err);
        }
        StoreFault::InputTooLong => print_unread_line(name, b"more than 16777216 bytes", err),
    }
}

/// Whether what shows the reason of a refusal is printed after its line.
pub(crate) fn shows_why(request: &Request<'_>) -> bool
    ensures { result ≡ shows_why (asked_of request.now) }
{
    match request.command {
        Command::Explain | Command::Verdict => true,
        _ => request.why,
    }
}

/// Prints that a file was not read, and which and why where that is shown, and answers the exit status.
pub(crate) fn unread_status<S: Store, E: Output>(
    unread: Unread<'_>,
    request: &Request<'_>,
    store: &S,
    err: &mut E,
) -> u8
    ensures status { result ≡ store_status unread.entry.fault }
    ensures says { Says E.taken E.failures (asked_of request.now) err.old err.new
        (Some (store_fault_name unread.entry.fault)) }
{
    if !shows_why(request) {
        return store_status(unread.fault, err);
    }
    let status = store_status(unread.fault, err);
    print_unread(unread.name, unread.fault, store, err);
    status
}

/// Prints why there is no report, and answers the exit status.
pub(crate) fn report_status<E: Output>(fault: ReportFault, err: &mut E) -> u8
    ensures status { result ≡ report_status fault }
    ensures says { TakesOrFails E.taken E.failures err.old err.new (refusal_line (fault_text fault)) }
{
    print_refusal_line(fault_name(fault), fault_place(fault), err);
    match fault {
        ReportFault::Memory => 3,
        ReportFault::Device => 4,
        _ => 1,
    }
}
