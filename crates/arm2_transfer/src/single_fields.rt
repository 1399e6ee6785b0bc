use crate::addresses::{address_by, moved_by};
use crate::registers::{pass, write_base};
use arm2_decode::{Register, asks_for_user, writes_base};
use arm2_effect::{Mode, Reg, Registers, mode_of};

/// A single transfer, with its offset as a number.
#[derive(Clone, Copy)]
pub struct Single {
    /// P: whether the base is moved before the access.
    pub before: bool,
    /// U: whether the offset is added, not subtracted.
    pub up: bool,
    /// B: a byte, not a word.
    pub byte: bool,
    /// W.
    pub write_back: bool,
    /// L: a load, not a store.
    pub load: bool,
    /// The base.
    pub rn: Register,
    /// The register that is loaded or stored.
    pub rd: Register,
    /// In bytes.
    pub offset: u32,
}

impl Single {
    ghost use Rattle.std.specs.Prelude.{◌≡◌};
    ghost use Rattle.arm2_transfer.specs.Single.{address_for, has_user_rights, base_after};

    /// The address, of 32 bits.
    pub(crate) fn address(self, base: u32) -> u32
        ensures { result ≡ address_for self base }
    {
        address_by(self.before, self.up, base, self.offset)
    }

    /// Whether the access has the rights of User.
    pub(crate) fn has_user_rights(self, mode: Mode) -> bool
        ensures { result ≡ has_user_rights self mode }
    {
        mode.is_user() || asks_for_user(self.before, self.write_back)
    }

    /// R15 goes on, and the moved base is written back where it is.
    pub(crate) fn write_base(self, registers: &mut Registers, base: u32)
        ensures { registers.new ≡ base_after self base registers.old }
    {
        let mode = mode_of(registers.get(Reg::R15));
        pass(registers);
        write_base(
            registers,
            writes_base(self.before, self.write_back),
            mode,
            self.rn,
            moved_by(self.up, base, self.offset),
        );
    }
}
