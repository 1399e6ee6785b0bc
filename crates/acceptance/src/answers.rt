//! What the reports say of bytes as one of their inputs.

use arcwcet::{
    Bursts, Explained, MemoryOutput, ReportFault, RowForm, SourceFile, TableForm, asm_report,
    bound_report, check_report, draft_report, explain_report, fault_only, list_report, run_report,
};
use samples::countdown::{SOURCE, STATEMENT};
use std::alloc::{AllocError, Global};

/// As what bytes are read, beside the countdown's other inputs.
#[derive(Clone, Copy)]
pub(crate) enum Input {
    Source,
    /// A source that is listed.
    Listed,
    /// A source of whose handler at 8000 a statement is drafted.
    Drafted,
    Statement,
    /// A statement by which the bound is explained.
    Explained,
    Machine,
    Profile,
    Certificate,
}

/// What is said of an input that is not refused.
pub(crate) const TAKEN: &str = "taken";

fn explained(alloc: Global, statement: &[u8], out: &mut MemoryOutput) -> Result<bool, ReportFault> {
    let explained = Explained {
        source: SourceFile::plain(SOURCE),
        statement,
        at_most: None,
        bursts: Bursts {
            count: None,
            every: None,
        },
        form: TableForm {
            first: false,
            rows: RowForm {
                all: false,
                top: None,
                width: 80,
            },
        },
        each: false,
    };
    fault_only(explain_report(alloc, explained, None, out))
}

// Reads the bytes as that input.
fn read(alloc: Global, input: Input, bytes: &[u8]) -> Result<bool, ReportFault> {
    let mut out = MemoryOutput::with_room(alloc, 0)?;
    let (source, given) = (SourceFile::plain(SOURCE), SourceFile::plain(bytes));
    match input {
        Input::Source => asm_report(alloc, given, &mut out).and(Ok(true)),
        Input::Listed => list_report(alloc, given, &mut out).and(Ok(true)),
        Input::Drafted => draft_report(alloc, given, b"0x8000", &mut out).and(Ok(true)),
        Input::Explained => explained(alloc, bytes, &mut out),
        Input::Statement => bound_report(alloc, source, bytes, None, &mut out).and(Ok(true)),
        Input::Machine => run_report(alloc, source, bytes, None, &mut out),
        Input::Profile => {
            bound_report(alloc, source, STATEMENT, Some(bytes), &mut out).and(Ok(true))
        }
        Input::Certificate => check_report(alloc, source, STATEMENT, bytes, None, &mut out),
    }
}

/// Whether a report says that of the bytes as that input.
pub(crate) fn is_answer(
    alloc: Global,
    input: Input,
    bytes: &[u8],
    answer: &str,
) -> Result<bool, AllocError> {
    match read(alloc, input, bytes) {
        Ok(is_right) => Ok(is_right && answer == TAKEN),
        Err(fault) => Ok(format!(in alloc; "{fault}")?.as_str() == answer),
    }
}
