ghost use Rattle.std.specs.Prelude.{◌≡◌, ◌++◌, List, ℕ, IfErr, IfOk, OnOk, option_map};
ghost use Rattle.std.specs.Prelude.{string_bytes};
ghost use Rattle.bus_ticks.specs.declared.profile.Profile.{Profile};
ghost use Rattle.arm2_exec.specs.Run.{Runs};
ghost use Rattle.asm_text.specs.Appended.{Appends};
ghost use Rattle.handlers.specs.Placing.{IsPlaced, IsRunRefused, IsRunnable};
ghost use Rattle.arm2_exec.specs.Step.{address_in};
ghost use Rattle.machine_reports.specs.Machine.{End, Front, IsMachineReport, ReportsRun, ShowsRecords};
ghost use Rattle.machine_reports.specs.Machine.{ShowsRegisters, ShowsSteps, end_text, lines_end, reached_if};
ghost use Rattle.machine_reports.specs.Machine.{record_end};
ghost use Rattle.machine_reports.specs.RunTo.{ShowsRunTo};
ghost use Rattle.handlers.specs.Priced.{Priced};
ghost use Rattle.handlers.specs.Report.{BeforeOutput};
ghost use Rattle.sources.specs.File.{File, file_of};

use crate::steps_to::{write_records_to, write_registers_to, write_run_to};
use arm2_exec::{Input, Machine, Ran};
use bus_ticks::Profile;
use handlers::{Placed, ReportFault, place, print_answer, profile_of};
use json_trace::write_records;
use outputs::Output;
use sources::SourceFile;
use std::alloc::{AllocError, Global};
use std::fmt::Write;
use text_trace::{write_registers, write_run, write_stop, write_ticks};

/// A report's text, and whether the machine did not stop.
#[derive(Drop)]
pub(crate) struct Shown {
    pub(crate) text: String,
    pub(crate) done: bool,
}

/// Why and where the machine stopped, if it did, and the ticks of the run.
fn put_end(out: &mut String, machine: &Machine, ran: &Ran) -> Result<(), AllocError>
    ensures { OnOk result (string_bytes out.new ≡ string_bytes out.old ++ end_text ran.now machine.now) }
{
    if let Some(why) = ran.stopped {
        write_stop(out, why, machine.address())?;
    }
    write_ticks(out, ran.ticks, ran.elapsed)
}

// That the run has reached the address to which it was to go, if it has.
fn put_reached(out: &mut String, machine: &Machine, to: Option<u32>) -> Result<(), AllocError>
    ensures { OnOk result
        (string_bytes out.new ≡ string_bytes out.old ++ reached_if to (address_in machine.now.regs)) }
{
    match to {
        Some(to) if machine.address() == to => write!(out, "reached {to:X}\n"),
        _ => Ok(()),
    }
}

// The end of a report in lines.
fn put_lines_end(
    out: &mut String,
    machine: &Machine,
    ran: &Ran,
    to: Option<u32>,
) -> Result<(), AllocError>
    ensures { OnOk result
        (string_bytes out.new ≡ string_bytes out.old ++ lines_end to ran.now machine.now) }
{
    put_reached(out, machine, to)?;
    put_end(out, machine, ran)?;
    Ok(())
}

/// How the report of a run is written: what it prints of the run, and its end.
pub trait Front {
    /// The text in front of the end, of the machine before the run, its inputs and the machine after it.
    ghost shows: { Front };

    /// The end.
    ghost ends: { End };

    /// Runs the machine and adds the text.
    ///
    /// # Errors
    ///
    /// An allocation failed.
    fn write_front(
        out: &mut String,
        machine: &mut Machine,
        inputs: &[Input],
    ) -> Result<Ran, AllocError>
        ensures runs { IfOk result (λ ran. Runs machine.old inputs.now ran machine.new) }
        ensures text { OnOk result
            (Appends (shows machine.old inputs.now machine.new) (string_bytes out.old)
            (string_bytes out.new)) };

    /// The same of the run that ends before the instruction at an address.
    ///
    /// # Errors
    ///
    /// An allocation failed.
    fn write_front_to(
        out: &mut String,
        machine: &mut Machine,
        inputs: &[Input],
        to: u32,
    ) -> Result<Ran, AllocError>
        ensures { IfOk result
            (λ ran. Appends (ShowsRunTo shows to machine.old inputs.now ran machine.new)
            (string_bytes out.old) (string_bytes out.new)) };

    /// Adds the end of a run, with the address to which it was to go, if any.
    ///
    /// # Errors
    ///
    /// An allocation failed.
    fn write_end(
        out: &mut String,
        machine: &Machine,
        ran: &Ran,
        to: Option<u32>,
    ) -> Result<(), AllocError>
        ensures { OnOk result (string_bytes out.new ≡ string_bytes out.old ++ ends to ran.now machine.now) };
}

/// The registers in which the run ends.
pub struct ShownRegisters;

impl Front for ShownRegisters {
    ghost shows = { ShowsRegisters };

    ghost ends = { lines_end };

    fn write_front(
        out: &mut String,
        machine: &mut Machine,
        inputs: &[Input],
    ) -> Result<Ran, AllocError> {
        let ran = machine.run(inputs);
        write_registers(out, machine)?;
        Ok(ran)
    }

    fn write_front_to(
        out: &mut String,
        machine: &mut Machine,
        inputs: &[Input],
        to: u32,
    ) -> Result<Ran, AllocError> {
        write_registers_to(out, machine, inputs, to)
    }

    fn write_end(
        out: &mut String,
        machine: &Machine,
        ran: &Ran,
        to: Option<u32>,
    ) -> Result<(), AllocError> {
        put_lines_end(out, machine, ran, to)
    }
}

/// A line for each step.
pub struct ShownSteps;

impl Front for ShownSteps {
    ghost shows = { ShowsSteps };

    ghost ends = { lines_end };

    fn write_front(
        out: &mut String,
        machine: &mut Machine,
        inputs: &[Input],
    ) -> Result<Ran, AllocError> {
        write_run(out, machine, inputs)
    }

    fn write_front_to(
        out: &mut String,
        machine: &mut Machine,
        inputs: &[Input],
        to: u32,
    ) -> Result<Ran, AllocError> {
        write_run_to(out, machine, inputs, to)
    }

    fn write_end(
        out: &mut String,
        machine: &Machine,
        ran: &Ran,
        to: Option<u32>,
    ) -> Result<(), AllocError> {
        put_lines_end(out, machine, ran, to)
    }
}

/// A line of JSON for each step, and one at the end.
pub struct ShownRecords;

impl Front for ShownRecords {
    ghost shows = { ShowsRecords };

    ghost ends = { record_end };

    fn write_front(
        out: &mut String,
        machine: &mut Machine,
        inputs: &[Input],
    ) -> Result<Ran, AllocError> {
        write_records(out, machine, inputs)
    }

    fn write_front_to(
        out: &mut String,
        machine: &mut Machine,
        inputs: &[Input],
        to: u32,
    ) -> Result<Ran, AllocError> {
        write_records_to(out, machine, inputs, to)
    }

    fn write_end(
        out: &mut String,
        machine: &Machine,
        ran: &Ran,
        to: Option<u32>,
    ) -> Result<(), AllocError> {
        json_trace::put_end(out, machine, ran)
    }
}

fn report_of<F: Front>(
    alloc: Global,
    source: SourceFile<'_>,
    machine: &[u8],
    profile: Profile,
) -> Result<Shown, ReportFault>
    ensures shown { IfOk result
        (λ s. IsMachineReport F.shows F.ends (file_of source.entry) machine.now profile s.done
        (string_bytes s.text)) }
    ensures fault { IfErr result (BeforeOutput (IsRunRefused (file_of source.entry) machine.now profile)) }
    ensures only { IsRunnable (file_of source.entry) machine.now profile → IfErr result
        (λ e. e ≡ ReportFault.Memory) }
{
    let mut placed = place(alloc, source, machine, profile)?;
    placed_report::<F>(alloc, &mut placed)
}

// The report of a machine that has all its words.
fn placed_report<F: Front>(alloc: Global, placed: &mut Placed) -> Result<Shown, ReportFault>
    ensures shown { (source : File) (machine : List ℕ) (profile : Profile)
        → IsPlaced source machine profile placed.old.file placed.old.machine
        → IfOk result (λ s. IsMachineReport F.shows F.ends source machine profile s.done (string_bytes s.text)) }
    ensures memory { IfErr result (λ e. e ≡ ReportFault.Memory) }
{
    let inputs = placed.file.inputs(alloc)?;
    let mut text = String::new(alloc);
    let ran = F::write_front(&mut text, &mut placed.machine, &inputs)?;
    F::write_end(&mut text, &placed.machine, &ran, None)?;
    Ok(Shown {
        text,
        done: ran.stopped.is_none(),
    })
}

fn priced<F: Front, O: Output>(
    alloc: Global,
    source: SourceFile<'_>,
    machine: &[u8],
    profile: Profile,
    out: &mut O,
) -> Result<bool, ReportFault>
    ensures { ReportsRun F.shows F.ends O.taken O.failures (file_of source.entry) machine.now profile out.old
        out.new result }
{
    let shown = report_of::<F>(alloc, source, machine, profile)?;
    print_answer(shown.done, shown.text.as_bytes(), out)
}

/// Runs the machine of a source and a machine file by a cycle profile's file or the first profile, prints the
/// report, and answers whether the run did all its steps.
///
/// # Errors
///
/// Those of [`run_report`], in the same order. After any but `Device` nothing was written.
pub fn machine_report<F: Front, O: Output>(
    alloc: Global,
    source: SourceFile<'_>,
    machine: &[u8],
    profile: Option<&[u8]>,
    out: &mut O,
) -> Result<bool, ReportFault>
    ensures { Priced (option_map (λ f. f.now) profile.entry)
        (λ p. ReportsRun F.shows F.ends O.taken O.failures (file_of source.entry) machine.now p out.old
        out.new result) out.old out.new result }
{
    let profile = profile_of(alloc, profile)?;
    priced::<F, O>(alloc, source, machine, profile, out)
}

/// Runs the machine of a source and a machine file ([`read_machine`](machine_file::read_machine)), with the
/// source's words and then the file's put into its memory, for the file's steps, 65,536 at most, by a cycle
/// profile's file or the first profile. Writes the registers of the mode that it ends in, where it stopped
/// (if it did), and the ticks of the processor and those that passed, bursts and all. `false`: it stopped
/// before its steps were done.
///
/// # Errors
///
/// The first in the order of the work: profile, source, machine file, load. Nothing is written until the run
/// has ended, so after any fault but `Device` nothing was.
pub fn run_report<O: Output>(
    alloc: Global,
    source: SourceFile<'_>,
    machine: &[u8],
    profile: Option<&[u8]>,
    out: &mut O,
) -> Result<bool, ReportFault>
    ensures { Priced (option_map (λ f. f.now) profile.entry)
        (λ p. ReportsRun ShowsRegisters lines_end O.taken O.failures (file_of source.entry) machine.now p
        out.old out.new result) out.old out.new result }
{
    machine_report::<ShownRegisters, O>(alloc, source, machine, profile, out)
}

/// Runs the machine as [`run_report`] does, and writes the line of each step (the instruction's address,
/// word, ticks and text) in place of the registers, with the same end.
///
/// # Errors
///
/// Those of [`run_report`], in the same order.
pub fn trace_report<O: Output>(
    alloc: Global,
    source: SourceFile<'_>,
    machine: &[u8],
    profile: Option<&[u8]>,
    out: &mut O,
) -> Result<bool, ReportFault>
    ensures { Priced (option_map (λ f. f.now) profile.entry)
        (λ p. ReportsRun ShowsSteps lines_end O.taken O.failures (file_of source.entry) machine.now p out.old
        out.new result) out.old out.new result }
{
    machine_report::<ShownSteps, O>(alloc, source, machine, profile, out)
}
