ghost use Rattle.std.specs.Prelude.{◌≡◌, ◌<◌, ◌≤◌};
ghost use Rattle.arm2_effect.specs.Effects.{ticks_of};
ghost use Rattle.arm2_effect.specs.Modes.{r15_in};
ghost use Rattle.arm2_decode.specs.Transfers.{is_listed, registers_in, word_count};
ghost use Rattle.arm2_transfer.specs.Words.{AllFit, AreFitted, moves_along};
ghost use Rattle.arm2_transfer.specs.Moved.{IsMoved, load_accesses, with_state};
ghost use Rattle.arm2_effect.specs.ProgramCounter.{address_of, mode_of};
ghost use Rattle.arm2_transfer.specs.Registers.{passed, with_base};
ghost use Rattle.arm2_transfer.specs.Block.{load_all, put_all, block_at, block_loads, block_mode};
ghost use Rattle.arm2_transfer.specs.Block.{block_moved, block_put, block_stores, mode_for};
ghost use Rattle.arm2_transfer.specs.Block.{span_of, written_back};

use crate::addresses::{lowest_of, moved_by};
use crate::bus::{Bus, put, seen};
use crate::processor::Processor;
use crate::registers::{Loading, enter, given, pass, write_base};
use crate::run::{load_along, put_along};
use crate::span::Span;
use crate::transfer_ends::{Accesses, end_of_load, end_of_store};
use crate::words::{Move, locate_block, split_lowest};
use arm2_decode::{Block, Register};
use arm2_effect::{Done, Kind, Mode, Prices, Reg, Registers, Vector, address_of, mode_of};
use bus_ticks::SPACE_END;
use memc::Spot;

fn span_of(transfer: &Block, base: u32, words: u32) -> Span
    requires { words ≤ 16 }
    ensures { result ≡ span_of transfer.now base words }
{
    Span {
        lowest: lowest_of(transfer, base, words),
        words,
        base: moved_by(transfer.up, base, 4 * words),
    }
}

// Whose registers are moved.
fn mode_for(transfer: Block, mode: Mode) -> Mode
    ensures { result ≡ mode_for transfer mode }
{
    if transfer.user && !(transfer.load && transfer.is_listed(Register::R15)) {
        Mode::User
    } else {
        mode
    }
}

fn put_all(registers: &Registers, bus: &mut Bus, mode: Mode, moves: &[Move])
    requires { AllFit bus.old.memc.shift moves.now }
    ensures put { bus.new ≡ put_all mode registers.now moves.now bus.old }
{
    for one in moves {
        put(bus, one.spot, given(registers, mode, one.register));
    }
}

fn load_all(registers: &mut Registers, bus: &Bus, port: u32, loading: Loading, moves: &[Move])
    requires { AllFit bus.now.memc.shift moves.now }
    ensures { registers.new
        ≡ load_all loading.psr loading.mode loading.r15 bus.now port moves.now registers.old }
{
    for one in moves {
        let word = seen(bus, port, one.spot);
        enter(registers, loading, one.register, word);
    }
}

// A block transfer, and where its words lie.
#[derive(Clone, Copy)]
struct PlacedBlock {
    transfer: Block,
    span: Span,
    ghost some: { 1 ≤ span.words },
    ghost few: { span.words ≤ 16 },
}

// The accesses of the instruction at an address.
fn accesses(block: PlacedBlock, from: u32) -> Accesses
    ensures { result
        ≡ (record { from = from; address = block.span.lowest; words = block.span.words }) }
{
    Accesses {
        from,
        address: block.span.lowest,
        words: block.span.words,
    }
}

// R15 goes on and the base is written back, before any word is loaded.
#[inline(always)]
fn begin_load(registers: &mut Registers, block: PlacedBlock) -> Loading
    ensures loading { result
        ≡ (record {
          psr = block.transfer.user;
          mode = block_mode block.transfer registers.old;
          r15 = r15_in registers.old;
        }) }
    ensures registers { registers.new
        ≡ with_base block.transfer.write_back (mode_of (r15_in registers.old)) block.transfer.rn
        block.span.base (passed registers.old) }
{
    let transfer = block.transfer;
    let r15 = registers.get(Reg::R15);
    let mode = mode_of(r15);
    pass(registers);
    write_base(
        registers,
        transfer.write_back,
        mode,
        transfer.rn,
        block.span.base,
    );
    Loading {
        psr: transfer.user,
        mode: mode_for(transfer, mode),
        r15,
    }
}

// What a load answers once its words are in the registers; R15 was `r15` before it.
#[inline(always)]
fn end_load(registers: &Registers, prices: &Prices, block: PlacedBlock, r15: u32) -> Done
    requires { block.span.lowest < SPACE_END }
    ensures kind { result.kind ≡ Kind.Plain }
    ensures ticks { result.ticks
        ≡ ticks_of prices.now
        (load_accesses (address_of r15) block.span.lowest block.span.words
        (is_listed block.transfer.list Register.R15) (address_of (r15_in registers.now))) }
{
    let to = address_of(registers.get(Reg::R15));
    let jumps = block.transfer.is_listed(Register::R15);
    end_of_load(prices, accesses(block, address_of(r15)), jumps, to)
}

impl Processor {
    // The words are stored and the base is written back: after the first word, which is that of the registers
    // as they were.
    #[tactic(auto, unfolding(crate::specs::Block::block_put))]
    fn put_block(&mut self, block: PlacedBlock, moves: &[Move])
        requires { AllFit self.old.bus.memc.shift moves.now }
        ensures { self.new
            ≡ with_state (written_back block.transfer block.span self.old.registers)
            (block_put (block_mode block.transfer self.old.registers) self.old.registers
            (written_back block.transfer block.span self.old.registers) moves.now self.old.bus) self.old }
    {
        let (transfer, base) = (block.transfer, block.span.base);
        let own = mode_of(self.registers.get(Reg::R15));
        let mode = mode_for(transfer, own);
        let registers = &mut self.registers;
        match moves {
            [] => write_base(registers, transfer.write_back, own, transfer.rn, base),
            [first, rest @ ..] => {
                put(
                    &mut self.bus,
                    first.spot,
                    given(registers, mode, first.register),
                );
                write_base(registers, transfer.write_back, own, transfer.rn, base);
                put_all(registers, &mut self.bus, mode, rest);
            }
        }
    }

    // The same, at the words from a place of RAM on.
    #[tactic(auto, unfolding(crate::specs::Block::block_put))]
    #[inline(always)]
    fn put_run(&mut self, block: PlacedBlock, place: u32)
        requires some { 1 ≤ word_count block.transfer.list }
        requires fitted { AreFitted self.old.bus.memc.shift place block.transfer.list }
        ensures { self.new
            ≡ with_state (written_back block.transfer block.span self.old.registers)
            (block_put (block_mode block.transfer self.old.registers) self.old.registers
            (written_back block.transfer block.span self.old.registers)
            (moves_along place (registers_in block.transfer.list)) self.old.bus) self.old }
    {
        let (transfer, base) = (block.transfer, block.span.base);
        let own = mode_of(self.registers.get(Reg::R15));
        let mode = mode_for(transfer, own);
        let (register, rest) = split_lowest(transfer.list);
        let registers = &mut self.registers;
        put(
            &mut self.bus,
            Spot::Ram(place),
            given(registers, mode, register),
        );
        write_base(registers, transfer.write_back, own, transfer.rn, base);
        put_along(registers, &mut self.bus, mode, rest, place + 4);
    }

    #[tactic(auto, unfolding(crate::specs::Block::block_loads))]
    fn block_loads(&mut self, block: PlacedBlock, moves: &[Move]) -> Done
        requires fit { AllFit self.old.bus.memc.shift moves.now }
        requires below { block.span.lowest < SPACE_END }
        ensures { IsMoved self.old result self.new
            (block_loads block.transfer block.span self.old.port moves.now self.old.registers self.old.bus) }
    {
        let loading = begin_load(&mut self.registers, block);
        load_all(&mut self.registers, &self.bus, self.port, loading, moves);
        end_load(&self.registers, &self.prices, block, loading.r15)
    }

    // The same, of the words from a place of RAM on.
    #[tactic(auto, unfolding(crate::specs::Block::block_loads))]
    fn load_run(&mut self, block: PlacedBlock, place: u32) -> Done
        requires fitted { AreFitted self.old.bus.memc.shift place block.transfer.list }
        requires below { block.span.lowest < SPACE_END }
        ensures { IsMoved self.old result self.new
            (block_loads block.transfer block.span self.old.port
            (moves_along place (registers_in block.transfer.list)) self.old.registers self.old.bus) }
    {
        let loading = begin_load(&mut self.registers, block);
        let list = block.transfer.list;
        load_along(&mut self.registers, &self.bus, loading, list, place);
        end_load(&self.registers, &self.prices, block, loading.r15)
    }

    #[tactic(auto, unfolding(crate::specs::Block::block_stores))]
    fn block_stores(&mut self, block: PlacedBlock, moves: &[Move]) -> Done
        requires fit { AllFit self.old.bus.memc.shift moves.now }
        requires below { block.span.lowest < SPACE_END }
        ensures { IsMoved self.old result self.new
            (block_stores block.transfer block.span moves.now self.old.registers self.old.bus) }
    {
        let r15 = self.registers.get(Reg::R15);
        self.put_block(block, moves);
        pass(&mut self.registers);
        end_of_store(&self.prices, accesses(block, address_of(r15)))
    }

    // The same, to the words from a place of RAM on.
    #[tactic(auto, unfolding(crate::specs::Block::block_stores))]
    fn store_run(&mut self, block: PlacedBlock, place: u32) -> Done
        requires listed { 1 ≤ word_count block.transfer.list }
        requires fitted { AreFitted self.old.bus.memc.shift place block.transfer.list }
        requires below { block.span.lowest < SPACE_END }
        ensures { IsMoved self.old result self.new
            (block_stores block.transfer block.span
            (moves_along place (registers_in block.transfer.list)) self.old.registers self.old.bus) }
    {
        let r15 = self.registers.get(Reg::R15);
        self.put_run(block, place);
        pass(&mut self.registers);
        end_of_store(&self.prices, accesses(block, address_of(r15)))
    }

    // A transfer whose words do not lie on one page of RAM, or that is refused: each word is located by
    // itself.
    #[tactic(auto, unfolding(crate::specs::Block::block_at, crate::specs::Block::block_by))]
    #[inline(never)]
    fn word_by_word(&mut self, block: PlacedBlock) -> Done
        requires { block.span.lowest < SPACE_END }
        ensures { IsMoved self.old result self.new
            (block_at block.transfer block.span self.old.port self.old.registers self.old.bus) }
    {
        let user = mode_of(self.registers.get(Reg::R15)).is_user();
        match locate_block(&self.bus.memc, block.transfer, block.span.lowest, user) {
            Err(fault) => self.refuse(fault),
            Ok(moves) if block.transfer.load => self.block_loads(block, moves.as_slice()),
            Ok(moves) => self.block_stores(block, moves.as_slice()),
        }
    }

    #[tactic(auto, unfolding(crate::specs::Block::block_at, crate::specs::Block::block_by))]
    #[inline(always)]
    fn block_at(&mut self, block: PlacedBlock) -> Done
        requires { block.span.words ≡ word_count block.transfer.list }
        ensures { IsMoved self.old result self.new
            (block_at block.transfer block.span self.old.port self.old.registers self.old.bus) }
    {
        let (span, load) = (block.span, block.transfer.load);
        if span.lowest >= SPACE_END {
            return self.registers.take(&self.prices, Vector::AddressException);
        }
        let user = mode_of(self.registers.get(Reg::R15)).is_user();
        match self
            .bus
            .memc
            .locate_run(span.lowest, span.words, user, !load)
        {
            Some(place) if load => self.load_run(block, place),
            Some(place) => self.store_run(block, place),
            None => self.word_by_word(block),
        }
    }

    /// A load or store of the registers of a list.
    #[tactic(auto, unfolding(crate::specs::Block::block_moved))]
    pub(crate) fn block_moved(&mut self, transfer: &Block) -> Done
        ensures { IsMoved self.old result self.new
            (block_moved transfer.now self.old.port self.old.registers self.old.bus) }
    {
        let mode = mode_of(self.registers.get(Reg::R15));
        let base = self.registers.read(mode, transfer.rn);
        let span = span_of(transfer, base, transfer.word_count());
        self.block_at(PlacedBlock {
            transfer: *transfer,
            span,
        })
    }
}
