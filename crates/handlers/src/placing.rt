ghost use Rattle.std.specs.Prelude.{◌≡◌, ◌⊎◌, List, ℕ, IfErr, IfOk, OnOk, false};
ghost use Rattle.bus_ticks.specs.declared.profile.Profile.{Profile};
ghost use Rattle.loader.specs.Loading.{lacks_page, put_words};
ghost use Rattle.handlers.specs.Placing.{IsPlaced, IsRunRefused, IsRunnable, IsStated, LacksPage};
ghost use Rattle.handlers.specs.Report.{BeforeOutput};
ghost use Rattle.sources.specs.Source.{Says};
ghost use Rattle.sources.specs.File.{File, file_of};

use crate::fault::ReportFault;
use crate::handler::read_source;
use arm2_exec::Machine;
use bus_ticks::Profile;
use image::Image;
use loader::{LoadFault, load, put_words};
use machine_file::{MachineFile, read_machine};
use sources::{Source, SourceFile};
use std::alloc::Global;

/// A machine with all its words, before its first step, and the file that states it.
#[derive(Drop)]
pub struct Placed {
    pub file: MachineFile,
    pub machine: Machine,
}

/// The machine of a source and a machine file.
///
/// # Errors
///
/// The first in the order of the work: source, machine file, load. `Memory`: an allocation failed.
pub fn place(
    alloc: Global,
    source: SourceFile<'_>,
    machine: &[u8],
    profile: Profile,
) -> Result<Placed, ReportFault>
    ensures placed { IfOk result (λ p. IsPlaced (file_of source.entry) machine.now profile p.file p.machine) }
    ensures fault { IfErr result (BeforeOutput (IsRunRefused (file_of source.entry) machine.now profile)) }
    ensures only { IsRunnable (file_of source.entry) machine.now profile → IfErr result
        (λ e. e ≡ ReportFault.Memory) }
{
    let said = read_source(alloc, source)?;
    place_image(alloc, &said, machine, profile)
}

/// The same, of a source that was read.
///
/// # Errors
///
/// The first in the order of the work: machine file, load. `Memory`: an allocation failed.
pub fn place_image(
    alloc: Global,
    said: &Source<'_>,
    machine: &[u8],
    profile: Profile,
) -> Result<Placed, ReportFault>
    ensures placed { (source : File) → Says source said.now
        → IfOk result (λ p. IsPlaced source machine.now profile p.file p.machine) }
    ensures fault { (source : File) → Says source said.now
        → IfErr result (BeforeOutput (IsRunRefused source machine.now profile)) }
{
    let file = read_machine(alloc, machine)?;
    let machine = loaded(alloc, &said.image, &file, profile)?;
    Ok(Placed { file, machine })
}

// Puts the words of the image into the machine, and then those of the file.
fn put_all(
    alloc: Global,
    machine: &mut Machine,
    image: &Image,
    file: &MachineFile,
) -> Result<(), LoadFault>
    ensures ok { OnOk result (machine.new ≡ put_words file.now.words (put_words image.now machine.old)) }
    ensures fits { OnOk result (lacks_page machine.old.bus.memc image.now ≡ false) }
    ensures file_fits { OnOk result (lacks_page machine.old.bus.memc file.now.words ≡ false) }
    ensures fault { IfErr result
        (λ fault. (fault ≡ LoadFault.Memory)
        ⊎ ((fault ≡ LoadFault.NoPage) × LacksPage machine.old image.now file.now)) }
{
    load(alloc, machine, image)?;
    put_words(alloc, machine, file.words())
}

// The file's machine with the words of the image and of the file.
fn loaded(
    alloc: Global,
    image: &Image,
    file: &MachineFile,
    profile: Profile,
) -> Result<Machine, ReportFault>
    ensures loaded { (source : File) (machine : List ℕ) → IsStated source machine image.now file.now
        → IfOk result (λ m. IsPlaced source machine profile file.now m) }
    ensures fault { (source : File) (machine : List ℕ) → IsStated source machine image.now file.now
        → IfErr result (BeforeOutput (IsRunRefused source machine profile)) }
{
    let mut machine = file.machine(alloc, profile)?;
    put_all(alloc, &mut machine, image, file)?;
    Ok(machine)
}
