//! The report of a run that ends before the instruction at an address.

ghost use Rattle.std.specs.Prelude.{◌≡◌, List, ℕ, IfErr, IfOk, Some, option_map, string_bytes};
ghost use Rattle.bus_ticks.specs.declared.profile.Profile.{Profile};
ghost use Rattle.debugger.specs.Commands.{number_or_label};
ghost use Rattle.debugger.specs.Words.{number_of};
ghost use Rattle.image.specs.Labels.{address_of};
ghost use Rattle.handlers.specs.Placing.{IsPlaced};
ghost use Rattle.handlers.specs.Priced.{Priced};
ghost use Rattle.handlers.specs.Report.{BeforeOutput};
ghost use Rattle.machine_reports.specs.RunTo.{IsRunToRefused, IsRunToReport, IsRunnableTo, ReportsRunTo};
ghost use Rattle.machine_reports.specs.RunTo.{end_of};
ghost use Rattle.sources.specs.Source.{Says};
ghost use Rattle.sources.specs.File.{File, file_of};

use crate::machine::{Front, Shown};
use asm_text::{read_hex, read_number};
use bus_ticks::{Profile, SPACE_END};
use handlers::{Placed, ReportFault, place_image, print_answer, profile_of, read_source};
use image::Labels;
use outputs::Output;
use sources::{Source, SourceFile};
use std::alloc::Global;

/// What a run that ends before the instruction at an address is made of: a source, a machine file, and the
/// word that says the address.
#[derive(Clone, Copy)]
pub struct RunTo<'a> {
    pub source: SourceFile<'a>,
    pub machine: &'a [u8],
    /// A label of the source, or a number: decimal, or hexadecimal after `&` or `0x`.
    pub to: &'a [u8],
}

// The number of a word: decimal, or hexadecimal after `&` or `0x`.
fn number_of(word: &[u8]) -> Option<u32>
    ensures { result ≡ number_of word.now }
{
    match word {
        [b'&', hex @ ..] => read_hex(hex),
        _ => read_number(word),
    }
}

// The number of a word, or the address of the label where it is none.
fn number_or_label(labels: &Labels, word: &[u8]) -> Option<u32>
    ensures { result ≡ number_or_label (number_of word.now) (address_of labels.now word.now) }
{
    match number_of(word) {
        Some(number) => Some(number),
        None => labels.get(word),
    }
}

// The address of a word that a word of the command line says.
fn end_of(labels: &Labels, word: &[u8]) -> Option<u32>
    ensures { result ≡ end_of (address_of labels.now) word.now }
{
    match number_or_label(labels, word) {
        Some(address) if address % 4 == 0 && address <= SPACE_END - 4 => Some(address),
        _ => None,
    }
}

// The report of a machine that has all its words.
fn placed_report<F: Front>(
    alloc: Global,
    placed: &mut Placed,
    to: u32,
) -> Result<Shown, ReportFault>
    ensures shown { (source : File) (machine word : List ℕ) (profile : Profile)
        → (is : IsPlaced source machine profile placed.old.file placed.old.machine)
        → end_of is.stated.names word ≡ Some to
        → IfOk result (λ s. IsRunToReport F.shows F.ends source machine word profile s.done (string_bytes s.text)) }
    ensures memory { IfErr result (λ e. e ≡ ReportFault.Memory) }
{
    let inputs = placed.file.inputs(alloc)?;
    let mut text = String::new(alloc);
    let ran = F::write_front_to(&mut text, &mut placed.machine, &inputs, to)?;
    F::write_end(&mut text, &placed.machine, &ran, Some(to))?;
    Ok(Shown {
        text,
        done: ran.stopped.is_none(),
    })
}

// The report on a source that was read.
fn source_report<F: Front>(
    alloc: Global,
    said: &Source<'_>,
    asked: RunTo<'_>,
    profile: Profile,
) -> Result<Shown, ReportFault>
    ensures shown { Says (file_of asked.entry.source) said.now
        → IfOk result
        (λ s. IsRunToReport F.shows F.ends (file_of asked.entry.source) asked.entry.machine.now
        asked.entry.to.now profile s.done (string_bytes s.text)) }
    ensures fault { Says (file_of asked.entry.source) said.now
        → IfErr result (BeforeOutput
        (IsRunToRefused (file_of asked.entry.source) asked.entry.machine.now asked.entry.to.now profile)) }
{
    let Some(to) = end_of(&said.labels, asked.to) else {
        return Err(ReportFault::NoSuchEntry);
    };
    let mut placed = place_image(alloc, said, asked.machine, profile)?;
    placed_report::<F>(alloc, &mut placed, to)
}

fn report_of<F: Front>(
    alloc: Global,
    asked: RunTo<'_>,
    profile: Profile,
) -> Result<Shown, ReportFault>
    ensures shown { IfOk result
        (λ s. IsRunToReport F.shows F.ends (file_of asked.entry.source) asked.entry.machine.now
        asked.entry.to.now profile s.done (string_bytes s.text)) }
    ensures fault { IfErr result (BeforeOutput
        (IsRunToRefused (file_of asked.entry.source) asked.entry.machine.now asked.entry.to.now profile)) }
    ensures only { IsRunnableTo (file_of asked.entry.source) asked.entry.machine.now asked.entry.to.now
        profile → IfErr result (λ e. e ≡ ReportFault.Memory) }
{
    let said = read_source(alloc, asked.source)?;
    source_report::<F>(alloc, &said, asked, profile)
}

fn priced<F: Front, O: Output>(
    alloc: Global,
    asked: RunTo<'_>,
    profile: Profile,
    out: &mut O,
) -> Result<bool, ReportFault>
    ensures { ReportsRunTo F.shows F.ends O.taken O.failures (file_of asked.entry.source)
        asked.entry.machine.now asked.entry.to.now profile out.old out.new result }
{
    let shown = report_of::<F>(alloc, asked, profile)?;
    print_answer(shown.done, shown.text.as_bytes(), out)
}

/// Runs the machine as [`machine_report`](crate::machine_report) does, up to the first state in which the
/// instruction at an address is next, before the first step too; where the run comes to none, as far as that
/// does. Prints the same, in lines of text with a line `reached` and the address in front of the ticks where
/// it is next, and answers whether the machine has not stopped.
///
/// # Errors
///
/// The first in the order of the work: profile, source, `NoSuchEntry` where the word is neither a label of
/// the source nor a multiple of 4 below 4000000, machine file, load. After any but `Device` nothing was
/// written.
pub fn run_to_report<F: Front, O: Output>(
    alloc: Global,
    asked: RunTo<'_>,
    profile: Option<&[u8]>,
    out: &mut O,
) -> Result<bool, ReportFault>
    ensures { Priced (option_map (λ f. f.now) profile.entry)
        (λ p. ReportsRunTo F.shows F.ends O.taken O.failures (file_of asked.entry.source)
        asked.entry.machine.now asked.entry.to.now p out.old out.new result) out.old out.new result }
{
    let profile = profile_of(alloc, profile)?;
    priced::<F, O>(alloc, asked, profile, out)
}
