ghost use Rattle.std.specs.Prelude.{◌≡◌, [], ◌++◌, IfOk, IfErr, OnOk};
ghost use Rattle.asm_text.specs.Source.{lines_of};
ghost use Rattle.asm_text.specs.Appended.{Appends};
ghost use Rattle.debugger.specs.Conversation.{Converses, AnswersOrRefuses, is_quit, refusal_text};
ghost use Rattle.debugger.specs.SessionState.{begun};
ghost use Rattle.image.specs.Labels.{address_of};

use crate::fault::{DebugFault, fault_name};
use crate::session::Session;
use crate::words::first_word;
use arm2_exec::Machine;
use asm_text::first_line;
use image::Labels;
use std::alloc::{AllocError, Global};

// Whether the line's one word is `quit`.
fn is_quit(line: &[u8]) -> bool
    ensures { result ≡ is_quit line.now }
{
    let Some((word, rest)) = first_word(line) else {
        return false;
    };
    word == b"quit".as_slice() && first_word(rest).is_none()
}

fn put_refusal(out: &mut Vec<u8>, fault: DebugFault) -> Result<(), AllocError>
    ensures { OnOk result (out.new.items ≡ out.old.items ++ refusal_text fault) }
{
    out.extend_from_slice(b"refused: ")?;
    out.extend_from_slice(fault_name(fault))?;
    out.extend_from_slice(b"\n")
}

// Adds what a session answers to a line.
fn put_answer(
    out: &mut Vec<u8>,
    alloc: Global,
    session: &mut Session,
    labels: &Labels,
    line: &[u8],
) -> Result<(), DebugFault>
    ensures ok { OnOk result
        (Appends (λ text. AnswersOrRefuses (address_of labels.now) session.old line.now text session.new)
        out.old.items out.new.items) }
    ensures fault { IfErr result (λ fault. fault ≡ DebugFault.Memory) }
{
    match session.command(alloc, labels, line) {
        Ok(answer) => {
            out.extend_from_slice(&answer)?;
            Ok(())
        }
        Err(DebugFault::Memory) => Err(DebugFault::Memory),
        Err(fault) => {
            put_refusal(out, fault)?;
            Ok(())
        }
    }
}

// Adds what a session answers to some lines, in their order, up to one that quits.
fn put_answers(
    out: &mut Vec<u8>,
    alloc: Global,
    session: &mut Session,
    labels: &Labels,
    lines: &[u8],
) -> Result<(), DebugFault>
    requires { out.old.items ≡ [] }
    ensures ok { OnOk result
        (Converses (address_of labels.now) session.old (lines_of lines.now) out.new.items) }
    ensures fault { IfErr result (λ fault. fault ≡ DebugFault.Memory) }
{
    let mut rest = lines;
    while let Some((line, after)) = first_line(rest) {
        if is_quit(line) {
            return Ok(());
        }
        put_answer(out, alloc, session, labels, line)?;
        rest = after;
    }
    Ok(())
}

// Adds what a session answers, whole.
fn hold(
    out: &mut Vec<u8>,
    alloc: Global,
    session: Session,
    labels: &Labels,
    lines: &[u8],
) -> Result<(), DebugFault>
    requires { out.old.items ≡ [] }
    ensures ok { OnOk result
        (Converses (address_of labels.now) session (lines_of lines.now) out.new.items) }
    ensures fault { IfErr result (λ fault. fault ≡ DebugFault.Memory) }
{
    let mut session = session;
    put_answers(out, alloc, &mut session, labels, lines)
}

/// A whole session: what it answers to command lines, in their order, up to a line whose one word is `quit`.
///
/// The port holds the word `port` until `port N`. Addresses may be said by labels. Lines are those of a
/// source's text. A refused command answers `refused: ` and the fault's name, and the session goes on.
///
/// # Errors
///
/// `Memory`, the one error: an allocation failed.
pub fn converse(
    alloc: Global,
    machine: Machine,
    port: u32,
    labels: &Labels,
    commands: &[u8],
) -> Result<Vec<u8>, DebugFault>
    ensures ok { IfOk result
        (λ answers. Converses (address_of labels.now) (begun machine port) (lines_of commands.now)
        answers.items) }
    ensures fault { IfErr result (λ fault. fault ≡ DebugFault.Memory) }
{
    let mut answers = Vec::new(alloc);
    let session = Session::with_port(machine, port);
    hold(&mut answers, alloc, session, labels, commands)?;
    Ok(answers)
}
