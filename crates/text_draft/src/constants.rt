use crate::counted::immediate;
use crate::word_actions::may_change;
use arm2_decode::{
    Cond, DataImmediate, DataRegister, Instr, Opcode, Operation, Register, Shift, SingleImmediate,
};
use arm2_transfer::address_by;
use bus_ticks::ahead_of;
use image::Image;
use std::alloc::{AllocError, Global};
use std::collections::BTreeSet;
use word_shapes::instr_at;

/// The words of the source that no word which is looked at stores by an address relative to PC.
#[derive(Drop)]
pub(crate) struct Literals<'i> {
    image: &'i Image,
    // the addresses of the others
    stored: BTreeSet<u32>,
}

// The address of the word at which the operation loads or stores by PC, where it shows it.
fn place_by_pc(at: u32, x: &SingleImmediate) -> Option<u32> {
    if !x.rn.is_pc() {
        return None;
    }
    let address = address_by(x.before, x.up, ahead_of(at, 8), x.offset);
    Some(address & !3)
}

// The address of the word to which the word at an address stores by PC.
fn place_stored(image: &Image, at: u32) -> Option<u32> {
    let instr = instr_at(image, at)?;
    match &instr.operation {
        Operation::SingleImmediate(x) if !x.load => place_by_pc(at, x),
        _ => None,
    }
}

impl<'i> Literals<'i> {
    /// Those of an image whose words at these addresses are looked at.
    pub(crate) fn of(
        alloc: Global,
        image: &'i Image,
        addresses: &[u32],
    ) -> Result<Literals<'i>, AllocError> {
        let mut stored = BTreeSet::new(alloc);
        for at in addresses {
            if let Some(place) = place_stored(image, *at) {
                stored.insert(place)?;
            }
        }
        Ok(Literals { image, stored })
    }

    // The word that the operation at an address loads by PC.
    fn loaded(&self, at: u32, x: &SingleImmediate) -> Option<u32> {
        if !x.load || x.byte || !x.before || x.offset % 4 != 0 {
            return None;
        }
        let place = place_by_pc(at, x)?;
        if self.stored.contains(&place) {
            return None;
        }
        self.image.word_at(place)
    }
}

/// The registers whose words the last words show.
#[derive(Clone, Copy)]
pub(crate) struct Constants {
    words: [Option<u32>; 16],
}

impl Constants {
    /// None is known.
    pub(crate) fn none() -> Self {
        Constants { words: [None; 16] }
    }

    /// The word of a register, for the instruction at an address.
    pub(crate) fn get(&self, register: Register, at: u32) -> Option<u32> {
        if register.is_pc() {
            return Some(ahead_of(at, 8));
        }
        self.words[register.number() as usize]
    }

    // The result of an operation with an immediate operand.
    fn given(&self, x: &DataImmediate, at: u32) -> Option<u32> {
        let operand = immediate(x);
        if x.opcode == Opcode::Mov {
            return Some(operand);
        }
        let word = self.get(x.rn, at)?;
        match x.opcode {
            Opcode::Add => Some(word.wrapping_add(operand)),
            Opcode::Sub => Some(word.wrapping_sub(operand)),
            Opcode::Orr => Some(word | operand),
            Opcode::Bic => Some(word & !operand),
            _ => None,
        }
    }

    // The word of a register that is moved.
    fn moved(&self, x: &DataRegister, at: u32) -> Option<u32> {
        if x.opcode == Opcode::Mov && x.shift == Shift::Lsl && x.amount == 0 && !x.rm.is_pc() {
            self.get(x.rm, at)
        } else {
            None
        }
    }

    fn set(&mut self, register: Register, word: Option<u32>) {
        self.words[register.number() as usize] = word;
    }

    // Forgets the registers that may differ after the instruction at an address.
    fn forget(&mut self, image: &Image, at: u32, instr: &Instr) {
        for (n, word) in self.words.iter_mut().enumerate() {
            if may_change(image, at, instr, Register::of(n as u32)) {
                *word = None;
            }
        }
    }

    // The register that an instruction sets, with its word where that is known.
    fn known_after(
        &self,
        literals: &Literals<'_>,
        at: u32,
        instr: &Instr,
    ) -> Option<(Register, u32)> {
        match &instr.operation {
            Operation::DataImmediate(x) => Some((x.rd, self.given(x, at)?)),
            Operation::DataRegister(x) => Some((x.rd, self.moved(x, at)?)),
            Operation::SingleImmediate(x) => Some((x.rd, literals.loaded(at, x)?)),
            _ => None,
        }
    }

    /// Goes past the instruction at an address.
    pub(crate) fn pass(&mut self, literals: &Literals<'_>, at: u32, instr: &Instr) {
        let known = self.known_after(literals, at, instr);
        self.forget(literals.image, at, instr);
        if let Some((register, word)) = known {
            if instr.cond == Cond::Al {
                self.set(register, Some(word));
            }
        }
    }
}
