ghost use Rattle.std.specs.Prelude.{◌≡◌, ◌<◌};
ghost use Rattle.memc.specs.Memory.{Fits};
ghost use Rattle.arm2_transfer.specs.Moved.{IsMoved, with_state};
ghost use Rattle.arm2_transfer.specs.Single.{address_for, single_loaded, single_loads, single_stores};
ghost use Rattle.arm2_transfer.specs.Single.{single_at, single_moved, of_immediate};
ghost use Rattle.arm2_transfer.specs.Single.{of_register};

use crate::bus::{made_of, put_single, seen};
use crate::processor::Processor;
use crate::registers::{Loading, enter, given};
use crate::single_fields::Single;
use crate::transfer_ends::{Accesses, end_of_load, end_of_store};
use crate::words::locate_word;
use arm2_decode::{SingleImmediate, SingleRegister};
use arm2_effect::{Done, Reg, Vector, address_of, mode_of};
use bus_ticks::SPACE_END;
use memc::Spot;

// A single transfer and its base, as it was before.
#[derive(Clone, Copy)]
struct PlacedSingle {
    transfer: Single,
    base: u32,
}

// The accesses of the instruction at an address.
#[inline(always)]
fn accesses(single: PlacedSingle, from: u32) -> Accesses
    ensures { result
        ≡ (record { from = from; address = address_for single.transfer single.base; words = 1 }) }
{
    Accesses {
        from,
        address: single.transfer.address(single.base),
        words: 1,
    }
}

// The fields of a word, with its offset as a number.
macro_rules! with_offset {
    ($fields:expr, $offset:expr) => {
        Single {
            before: $fields.before,
            up: $fields.up,
            byte: $fields.byte,
            write_back: $fields.write_back,
            load: $fields.load,
            rn: $fields.rn,
            rd: $fields.rd,
            offset: $offset,
        }
    };
}

impl Processor {
    #[tactic(auto, unfolding(crate::specs::Single::single_loaded))]
    #[inline(always)]
    fn load_word(&mut self, single: PlacedSingle, spot: Spot)
        requires { Fits self.old.bus.memc.shift spot }
        ensures { self.new
            ≡ with_state
            (single_loaded single.transfer single.base self.old.port spot self.old.registers self.old.bus)
            self.old.bus self.old }
    {
        let (transfer, base) = (single.transfer, single.base);
        let r15 = self.registers.get(Reg::R15);
        let word = seen(&self.bus, self.port, spot);
        let word = made_of(transfer.byte, transfer.address(base), word);
        transfer.write_base(&mut self.registers, base);
        let loading = Loading {
            psr: false,
            mode: mode_of(r15),
            r15,
        };
        enter(&mut self.registers, loading, transfer.rd, word);
    }

    #[tactic(auto, unfolding(crate::specs::Single::single_loads))]
    #[inline(always)]
    fn single_loads(&mut self, single: PlacedSingle, spot: Spot) -> Done
        requires fits { Fits self.old.bus.memc.shift spot }
        requires below { address_for single.transfer single.base < SPACE_END }
        ensures { IsMoved self.old result self.new
            (single_loads single.transfer single.base self.old.port spot self.old.registers self.old.bus) }
    {
        let r15 = self.registers.get(Reg::R15);
        self.load_word(single, spot);
        let to = address_of(self.registers.get(Reg::R15));
        let jumps = single.transfer.rd.is_pc();
        end_of_load(&self.prices, accesses(single, address_of(r15)), jumps, to)
    }

    #[tactic(auto, unfolding(crate::specs::Single::single_stores))]
    #[inline(always)]
    fn single_stores(&mut self, single: PlacedSingle, spot: Spot) -> Done
        requires fits { Fits self.old.bus.memc.shift spot }
        requires below { address_for single.transfer single.base < SPACE_END }
        ensures { IsMoved self.old result self.new
            (single_stores single.transfer single.base spot self.old.registers self.old.bus) }
    {
        let (transfer, base) = (single.transfer, single.base);
        let r15 = self.registers.get(Reg::R15);
        let value = given(&self.registers, mode_of(r15), transfer.rd);
        put_single(
            &mut self.bus,
            transfer.byte,
            spot,
            transfer.address(base),
            value,
        );
        transfer.write_base(&mut self.registers, base);
        end_of_store(&self.prices, accesses(single, address_of(r15)))
    }

    #[tactic(auto, unfolding(crate::specs::Single::single_at, crate::specs::Single::single_by))]
    #[inline(always)]
    fn single_at(&mut self, single: PlacedSingle) -> Done
        ensures { IsMoved self.old result self.new
            (single_at single.transfer single.base self.old.port self.old.registers self.old.bus) }
    {
        let transfer = single.transfer;
        let address = transfer.address(single.base);
        if address >= SPACE_END {
            return self.registers.take(&self.prices, Vector::AddressException);
        }
        let user = transfer.has_user_rights(mode_of(self.registers.get(Reg::R15)));
        match locate_word(&self.bus.memc, address, user, !transfer.load) {
            Err(fault) => self.refuse(fault),
            Ok(spot) if transfer.load => self.single_loads(single, spot),
            Ok(spot) => self.single_stores(single, spot),
        }
    }

    #[inline(always)]
    fn single_moved(&mut self, transfer: Single) -> Done
        ensures { IsMoved self.old result self.new
            (single_moved transfer self.old.port self.old.registers self.old.bus) }
    {
        let base = self.registers.first_of(transfer.rn, 8);
        self.single_at(PlacedSingle { transfer, base })
    }

    /// A load or store with its offset in the word.
    pub(crate) fn single_immediate(&mut self, fields: &SingleImmediate) -> Done
        ensures { IsMoved self.old result self.new
            (single_moved (of_immediate fields.now) self.old.port self.old.registers self.old.bus) }
    {
        self.single_moved(with_offset!(fields, fields.offset))
    }

    /// A load or store with its offset in a register.
    pub(crate) fn single_register(&mut self, fields: &SingleRegister) -> Done
        ensures { IsMoved self.old result self.new
            (single_moved (of_register fields.now self.old.registers) self.old.port self.old.registers
            self.old.bus) }
    {
        let offset = self
            .registers
            .shifted_by_amount(fields.shift, fields.amount, fields.rm);
        self.single_moved(with_offset!(fields, offset.value))
    }
}
