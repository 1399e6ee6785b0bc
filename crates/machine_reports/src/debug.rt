ghost use Rattle.std.specs.Prelude.{◌≡◌, IfErr, IfOk, option_map};
ghost use Rattle.handlers.specs.Answers.{Answers};
ghost use Rattle.machine_reports.specs.Debug.{IsDebugReport};
ghost use Rattle.handlers.specs.Placing.{IsRunRefused, IsRunnable};
ghost use Rattle.handlers.specs.Priced.{Priced};
ghost use Rattle.handlers.specs.Report.{BeforeOutput};
ghost use Rattle.sources.specs.Source.{Says};
ghost use Rattle.sources.specs.File.{file_of};

use bus_ticks::Profile;
use debugger::converse;
use handlers::{ReportFault, place_image, print_answer, profile_of, read_source};
use outputs::Output;
use sources::{Source, SourceFile};
use std::alloc::Global;

// The bytes of a source, a machine file and a session's commands.
#[derive(Clone, Copy)]
struct SessionInputs<'a> {
    source: SourceFile<'a>,
    machine: &'a [u8],
    commands: &'a [u8],
}

// What the session on a source that was read prints.
fn converse_on(
    alloc: Global,
    said: &Source<'_>,
    inputs: SessionInputs<'_>,
    profile: Profile,
) -> Result<Vec<u8>, ReportFault>
    ensures session { Says (file_of inputs.entry.source) said.now
        → IfOk result
        (λ text. IsDebugReport (file_of inputs.entry.source) inputs.entry.machine.now
        inputs.entry.commands.now profile text.items) }
    ensures fault { Says (file_of inputs.entry.source) said.now
        → IfErr result (BeforeOutput (IsRunRefused (file_of inputs.entry.source) inputs.entry.machine.now
        profile)) }
{
    let placed = place_image(alloc, said, inputs.machine, profile)?;
    let port = placed.file.port();
    let text = converse(alloc, placed.machine, port, &said.labels, inputs.commands)?;
    Ok(text)
}

// What the session prints.
fn session_text(
    alloc: Global,
    inputs: SessionInputs<'_>,
    profile: Profile,
) -> Result<Vec<u8>, ReportFault>
    ensures session { IfOk result
        (λ text. IsDebugReport (file_of inputs.entry.source) inputs.entry.machine.now
        inputs.entry.commands.now profile text.items) }
    ensures fault { IfErr result
        (BeforeOutput (IsRunRefused (file_of inputs.entry.source) inputs.entry.machine.now profile)) }
    ensures only { IsRunnable (file_of inputs.entry.source) inputs.entry.machine.now profile
        → IfErr result (λ e. e ≡ ReportFault.Memory) }
{
    let said = read_source(alloc, inputs.source)?;
    converse_on(alloc, &said, inputs, profile)
}

/// Writes a session of the debugger on the machine of a source and a machine file, by a cycle profile's file
/// or the first profile: the answers to the commands, a line each, up to their end or `quit`. A command's
/// refusal is printed in its place as `refused: NAME`, and the session goes on. The port begins with the
/// file's word; its `steps` and events are not used.
///
/// Nothing is written until the session has ended.
///
/// # Errors
///
/// Of several faults the first in the order of the work is answered: profile, source, machine file, load.
/// `Device`: the output failed, and took a front of the answers. `Memory`: an allocation failed. After any
/// but `Device` nothing was written.
pub fn debug_report<O: Output>(
    alloc: Global,
    source: SourceFile<'_>,
    machine: &[u8],
    commands: &[u8],
    profile: Option<&[u8]>,
    out: &mut O,
) -> Result<(), ReportFault>
    ensures { Priced (option_map (λ f. f.now) profile.entry)
        (λ p. Answers O.taken O.failures
        (λ _ text. IsDebugReport (file_of source.entry) machine.now commands.now p text)
        (IsRunnable (file_of source.entry) machine.now p)
        (IsRunRefused (file_of source.entry) machine.now p) out.old out.new result) out.old out.new result }
{
    let profile = profile_of(alloc, profile)?;
    let inputs = SessionInputs {
        source,
        machine,
        commands,
    };
    priced_session(alloc, inputs, profile, out)
}

fn priced_session<O: Output>(
    alloc: Global,
    inputs: SessionInputs<'_>,
    profile: Profile,
    out: &mut O,
) -> Result<(), ReportFault>
    ensures { Answers O.taken O.failures
        (λ _ text. IsDebugReport (file_of inputs.entry.source) inputs.entry.machine.now
        inputs.entry.commands.now profile text)
        (IsRunnable (file_of inputs.entry.source) inputs.entry.machine.now profile)
        (IsRunRefused (file_of inputs.entry.source) inputs.entry.machine.now profile) out.old out.new result }
{
    let text = session_text(alloc, inputs, profile)?;
    print_answer((), &text, out)
}
