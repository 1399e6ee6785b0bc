//! A machine whose one step takes an edge at exactly its price.

ghost use Rattle.std.specs.Prelude.{◌≡◌, ◌⊎◌, ◌<◌, ◌≤◌, Err, IfErr, IfOk, IfSome, IsNone, OnOk, All};
ghost use Rattle.std.specs.Prelude.{Some, [], ◌∷◌, ◌↔◌, false, length, map, slice_index_or};
ghost use Rattle.std.specs.Option.{option_to_list};
ghost use Rattle.bus_ticks.specs.declared.space.TheConstants.{SPACE_END};
ghost use Rattle.loader.specs.Loading.{lacks_page, put_words};
ghost use Rattle.memc.specs.declared.pages.TheConstants.{PHYSICAL_PAGES};
ghost use Rattle.shifter.specs.declared.shifts.TheConstants.{MOST_MULTIPLY_CYCLES};
ghost use Rattle.control_flow.specs.Graph.{IsFlowGraph};
ghost use Rattle.control_flow.specs.declared.edges.Edge.{Edge};
ghost use Rattle.arm2_decode.specs.Names.{is_pc};
ghost use Rattle.machine_file.specs.Parts.{IsInRange, HasNoneTwice, stated_by};
ghost use Rattle.control_flow.specs.Edges.{IsEdge};
ghost use Rattle.control_flow.specs.Free.{IsFree, IsFreeWord};
ghost use Rattle.flow_graph.specs.TightFile.{CanPlace, HasOwnWord, HasWordAt, IsPlaceWord, IsPlaced};
ghost use Rattle.flow_graph.specs.TightFile.{IsSettingOf, IsSetUp, IsTightAt, IsTightFile};
ghost use Rattle.flow_graph.specs.TightFile.{file_of, masked_flags};
ghost use Rattle.flow_graph.specs.TightFile.{open_page, registers_with};
ghost use Rattle.flow_graph.specs.TightWork.{IsDearestTarget};
ghost use Rattle.flow_graph.specs.declared.tight.TightFault.TheVariants.{Memory};

use crate::label_flags::flags_for;
use crate::tight_setting::{Aim, Held, NOTHING, Setting, setting_for};
use arm2_decode::{Flags, decode};
use arm2_effect::{Mode, slot_of};
use arm2_exec::{Input, Machine, MachineFault};
use bitflags::Flags as _;
use bus_ticks::{Profile, RomTimes, dearest_leave, dearest_rom_times};
use control_flow::{Edge, Graph, GraphInputs, Label, Place, action_of, is_free};
use image::Image;
use ioc::Lines;
use loader::{LoadFault, PagePlan, page_plan, put_words};
use machine_file::{
    ControllerParts, MachineFile, MachineFileFault, MachineParts, MappedPage, ProcessorParts,
    PsrFlags, ScheduleParts,
};
use memc::PageSize;
use statement::Statement;
use std::alloc::{AllocError, Global};
use thiserror::Error;

/// Why no machine is returned.
#[derive(Clone, Copy, Debug, PartialEq, Eq, Drop, Error)]
pub enum TightFault {
    /// An allocation failed.
    #[error("Memory")]
    Memory,
    /// The edge is not free ([`is_free`]).
    #[error("NotFree")]
    NotFree,
}

impl From<MachineFault> for TightFault {
    ghost from_gives = { λ _ fault. fault ≡ Memory };

    fn from(_refused: MachineFault) -> TightFault {
        TightFault::Memory
    }
}

impl From<AllocError> for TightFault {
    ghost from_gives = { λ _ fault. fault ≡ Memory };

    fn from(_refused: AllocError) -> TightFault {
        TightFault::Memory
    }
}

/// How a machine is set before its step.
#[derive(Clone, Copy)]
pub(crate) struct SetUp {
    /// The word's address, in bytes.
    pub(crate) address: u32,
    pub(crate) flags: Flags,
    pub(crate) setting: Setting,
}

// An address that is the place's, to which a jump costs the most.
fn target(inputs: &GraphInputs, to: &Place) -> Option<u32>
    ensures leads { IfSome result
        (IsDearestTarget inputs.now.statement.now inputs.now.profile.now to.now) }
    ensures none { IsNone result → HasWordAt inputs.now.image.now to.now → ⊥ }
{
    match to {
        Place::At(_, address) => {
            let _word = inputs.image.word_at(*address)?;
            Some(*address)
        }
        Place::Exit => Some(dearest_leave(inputs.profile, inputs.statement.leave())),
    }
}

// What the word needs besides its address: nothing where it is passed over.
fn setting_at(aim: &Aim, word: u32, label: Label) -> Setting
    requires free { (label ≡ Label.Skip) ⊎ IsFreeWord word }
    requires spare { aim.now.spare < PHYSICAL_PAGES }
    requires some { 1 ≤ aim.now.cycles }
    requires few { aim.now.cycles ≤ MOST_MULTIPLY_CYCLES }
    ensures { IsSettingOf aim.now word label result }
{
    match (label, decode(word)) {
        (Label::Skip, _) => NOTHING,
        (Label::Do, Ok(instr)) => setting_for(aim, &instr.operation),
        (Label::Do, Err(_)) => unreachable!(),
    }
}

// How a machine is set that takes the edge at its price; none where the edge is not free.
fn set_up_for(inputs: &GraphInputs, edge: &Edge, spare: u32) -> Option<SetUp>
    requires is_edge { IsEdge inputs.now.image.now inputs.now.statement.now inputs.now.profile.now
        edge.now }
    requires lands { HasWordAt inputs.now.image.now edge.now.to }
    requires spare { spare < PHYSICAL_PAGES }
    ensures is_set_up { IfSome result
        (IsSetUp inputs.now.image.now inputs.now.statement.now inputs.now.profile.now edge.now spare) }
    ensures free { IfSome result (λ _. IsFree inputs.now.image.now edge.now) }
    ensures none { IsNone result → IsFree inputs.now.image.now edge.now → ⊥ }
{
    if !is_free(inputs.image, edge) {
        return None;
    }
    let Place::At(_, address) = edge.from else {
        return None;
    };
    let word = inputs.image.word_at(address)?;
    let action = action_of(word);
    let flags = flags_for(action.cond, edge.label)?;
    let aim = Aim {
        profile: *inputs.profile,
        class: inputs.statement.class_at(address, action.base),
        cycles: inputs.statement.cycles_at(address),
        address,
        target: target(inputs, &edge.to)?,
        spare,
    };
    Some(SetUp {
        address,
        flags,
        setting: setting_at(&aim, word, edge.label),
    })
}

fn registers_with(held: Option<Held>) -> [u32; 26]
    requires { IfSome held (λ h. is_pc h.register ≡ false) }
    ensures { result ≡ registers_with held }
{
    let mut registers = [0; 26];
    if let Some(held) = held {
        registers[slot_of(Mode::Svc, held.register)] = held.word;
    }
    registers
}

fn masked_flags(flags: Flags) -> PsrFlags
    ensures { result ≡ masked_flags flags }
{
    PsrFlags {
        negative: flags.negative,
        zero: flags.zero,
        carry: flags.carry,
        overflow: flags.overflow,
        irq_masked: true,
        fiq_masked: true,
    }
}

fn open_pages(alloc: Global, plan: &PagePlan) -> Result<Vec<MappedPage>, AllocError>
    ensures { IfOk result (λ pages. pages.items ≡ map open_page plan.now.pages.items) }
{
    plan.pages
        .iter()
        .map(|page| MappedPage {
            logical: page.logical,
            physical: page.physical,
            level: 0,
        })
        .collect(alloc)
}

fn option_to_list(alloc: Global, word: Option<(u32, u32)>) -> Result<Vec<(u32, u32)>, AllocError>
    ensures { IfOk result (λ words. words.items ≡ option_to_list word) }
{
    let mut words = Vec::new(alloc);
    if let Some(word) = word {
        words.push(word)?;
    }
    Ok(words)
}

// One step of the machine that is set in this way.
fn parts(
    alloc: Global,
    set_up: &SetUp,
    plan: &PagePlan,
    rom: RomTimes,
) -> Result<MachineParts, AllocError>
    requires { IfSome set_up.now.setting.register (λ h. is_pc h.register ≡ false) }
    ensures { IfOk result (λ parts. stated_by parts ≡ file_of set_up.now plan.now.pages.items rom) }
{
    let pages = open_pages(alloc, plan)?;
    let words = option_to_list(alloc, set_up.setting.word)?;
    Ok(MachineParts {
        processor: ProcessorParts {
            pc: set_up.address,
            mode: Mode::Svc,
            flags: masked_flags(set_up.flags),
            registers: registers_with(set_up.setting.register),
        },
        controller: ControllerParts {
            size: PageSize::K32,
            low_rom: rom.low,
            high_rom: rom.high,
            pages,
        },
        schedule: ScheduleParts {
            steps: 1,
            port: set_up.setting.port,
        },
        words,
    })
}

// The machine file with one step from there.
fn file(
    alloc: Global,
    set_up: &SetUp,
    plan: &PagePlan,
    rom: RomTimes,
) -> Result<MachineFile, TightFault>
    requires register { IfSome set_up.now.setting.register (λ h. is_pc h.register ≡ false) }
    requires in_range { IsInRange (file_of set_up.now plan.now.pages.items rom) }
    requires once { HasNoneTwice (file_of set_up.now plan.now.pages.items rom) }
    ensures file { IfOk result (λ f. f ≡ file_of set_up.now plan.now.pages.items rom) }
    ensures fault { IfErr result (λ fault. fault ≡ TightFault.Memory) }
{
    let parts = parts(alloc, set_up, plan, rom)?;
    match MachineFile::of_parts(alloc, parts) {
        Ok(file) => Ok(file),
        Err(MachineFileFault::Memory) => Err(TightFault::Memory),
        Err(_) => unreachable!(),
    }
}

// The same, of a free edge of a graph.
fn edge_file(alloc: Global, inputs: &GraphInputs, edge: &Edge) -> Result<MachineFile, TightFault>
    requires is_edge { IsEdge inputs.now.image.now inputs.now.statement.now inputs.now.profile.now
        edge.now }
    requires lands { HasWordAt inputs.now.image.now edge.now.to }
    requires free { IsFree inputs.now.image.now edge.now }
    ensures tight { IfOk result
        (IsTightFile inputs.now.image.now inputs.now.statement.now inputs.now.profile.now edge.now) }
    ensures fault { IfErr result (λ fault. fault ≡ TightFault.Memory) }
{
    let plan = page_plan(alloc, inputs.image)?;
    match set_up_for(inputs, edge, plan.spare) {
        Some(set_up) => file(alloc, &set_up, &plan, dearest_rom_times(inputs.profile)),
        None => unreachable!(),
    }
}

// Puts words that all have a place.
fn put(alloc: Global, machine: &mut Machine, words: &[(u32, u32)]) -> Result<(), TightFault>
    requires below { All (λ e. e.0 < SPACE_END) words.now }
    requires fit { lacks_page machine.old.bus.memc words.now ≡ false }
    ensures put { OnOk result (machine.new ≡ put_words words.now machine.old) }
    ensures fault { IfErr result (λ fault. fault ≡ TightFault.Memory) }
{
    match put_words(alloc, machine, words) {
        Ok(()) => Ok(()),
        Err(LoadFault::Memory) => Err(TightFault::Memory),
        Err(LoadFault::NoPage) => unreachable!(),
    }
}

/// A machine whose one step takes an edge at exactly its price.
#[derive(Drop)]
pub struct Tight {
    /// The machine before the step. Of the image it has the word at the edge's place, and then the file's
    /// words.
    pub machine: Machine,
    pub input: Input,
    /// The machine file that states it, with one step. Its pages, of 32 KB, hold each word of the image below
    /// 2000000, and no word of the image from 2000000 on lies on them.
    pub file: MachineFile,
}

impl Tight {
    /// The logical pages, of 32 KB, that have words of the image, each with its physical page and level.
    pub fn maps(&self) -> &[MappedPage]
        ensures { result.now ≡ self.now.file.controller.pages }
    {
        self.file.pages()
    }

    /// The words that are put into the machine's memory after the image's, with their addresses in front.
    pub fn words(&self) -> &[(u32, u32)]
        ensures { result.now ≡ self.now.file.words }
    {
        self.file.words()
    }
}

// Puts one word into a machine, and then others.
fn put_in_turn(
    alloc: Global,
    machine: &mut Machine,
    word: (u32, u32),
    words: &[(u32, u32)],
) -> Result<(), TightFault>
    requires below { word.0 < SPACE_END }
    requires fits { lacks_page machine.old.bus.memc (word ∷ []) ≡ false }
    requires all_below { All (λ e. e.0 < SPACE_END) words.now }
    requires all_fit { lacks_page (put_words (word ∷ []) machine.old).bus.memc words.now ≡ false }
    ensures put { OnOk result (machine.new ≡ put_words words.now (put_words (word ∷ []) machine.old)) }
    ensures fault { IfErr result (λ fault. fault ≡ TightFault.Memory) }
{
    put(alloc, machine, &[word])?;
    put(alloc, machine, words)
}

// The machine of a file with a word of the image, and then those of the file.
fn placed(
    alloc: Global,
    profile: &Profile,
    file: &MachineFile,
    word: (u32, u32),
) -> Result<Machine, TightFault>
    requires { CanPlace profile.now file.now word }
    ensures placed { IfOk result (λ m. IsPlaced profile.now file.now word m) }
    ensures fault { IfErr result (λ fault. fault ≡ TightFault.Memory) }
{
    let mut machine = file.machine(alloc, *profile)?;
    put_in_turn(alloc, &mut machine, word, file.words())?;
    Ok(machine)
}

// The image's word at a place, with its address in front.
fn place_word(image: &Image, place: &Place) -> Option<(u32, u32)>
    ensures word { IfSome result (λ e. IsPlaceWord image.now place.now e) }
    ensures none { IsNone result → HasOwnWord image.now place.now → ⊥ }
{
    match place {
        Place::At(_, address) => {
            let word = image.word_at(*address)?;
            Some((*address, word))
        }
        Place::Exit => None,
    }
}

// A machine that takes a free edge of a graph.
fn tight_edge(alloc: Global, inputs: &GraphInputs, edge: &Edge) -> Result<Tight, TightFault>
    requires is_edge { IsEdge inputs.now.image.now inputs.now.statement.now inputs.now.profile.now
        edge.now }
    requires lands { HasWordAt inputs.now.image.now edge.now.to }
    requires free { IsFree inputs.now.image.now edge.now }
    ensures tight { IfOk result
        (IsTightAt inputs.now.image.now inputs.now.statement.now inputs.now.profile.now edge.now) }
    ensures fault { IfErr result (λ fault. fault ≡ TightFault.Memory) }
{
    let Some(word) = place_word(inputs.image, &edge.from) else {
        unreachable!();
    };
    let file = edge_file(alloc, inputs, edge)?;
    let machine = placed(alloc, inputs.profile, &file, word)?;
    let input = Input {
        bursts: 0,
        lines: Lines::empty(),
        port: file.port(),
    };
    Ok(Tight {
        machine,
        input,
        file,
    })
}

/// A machine and an input whose one step takes an edge at exactly its price: in SVC mode it executes the
/// image's word at the edge's place, moves only words of the stated classes, has the edge's label and leads
/// to its target. The edge is that of the number, from 0, in the order of the graph's edges; the graph is
/// that of the image and the statement, and has an edge of the number.
///
/// # Errors
///
/// `NotFree`: the edge is not free ([`is_free`]); of no other edge. `Memory` only where an allocation failed.
pub fn tight_state(
    alloc: Global,
    image: &Image,
    statement: &Statement,
    graph: &Graph,
    edge: usize,
) -> Result<Tight, TightFault>
    requires edge { edge < length graph.now.edges }
    requires graph { IsFlowGraph image.now statement.now graph.now.profile graph.now }
    ensures tight { (e : Edge) → e ≡ slice_index_or graph.now.edges edge e
        → IfOk result (λ t. IsTightAt image.now statement.now graph.now.profile e t) }
    ensures not_free { (e : Edge) → e ≡ slice_index_or graph.now.edges edge e
        → (result ≡ Err TightFault.NotFree) ↔ (IsFree image.now e → ⊥) }
{
    let edge = &graph.edges()[edge];
    if !is_free(image, edge) {
        return Err(TightFault::NotFree);
    }
    let profile = graph.profile();
    let inputs = GraphInputs {
        image,
        statement,
        profile: &profile,
    };
    tight_edge(alloc, &inputs, edge)
}
