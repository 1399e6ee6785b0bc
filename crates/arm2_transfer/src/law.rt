ghost use Rattle.std.specs.Prelude.{◌≡◌, ◌≢◌, ℕ, List, length};
ghost use Rattle.arm2_decode.specs.Names.{register_number};
ghost use Rattle.arm2_transfer.specs.Bases.{BlockBase, SingleBase};
ghost use Rattle.arm2_transfer.specs.Block.{block_moved};
ghost use Rattle.arm2_transfer.specs.Single.{single_moved};

use crate::bus::Bus;
use crate::single_fields::Single;
use arm2_decode::Block;
use arm2_effect::Kind;

/// States what a load or a store that is carried out leaves in its base register: the loaded word, where it
/// loads that register; else the moved base, where it writes it back; else the base as it was.
///
/// And what a store of the base writes: a single store the old base, and so a block that has it as the lowest
/// register of its list; a block that has it later, the base as it is written back. A block's base is that of
/// its own bank. It does nothing.
pub fn bases_after_transfers()
    ensures single { (x : Single) → (port : ℕ) → (regs : List ℕ) → (bus : Bus) → length regs ≡ 27
        → register_number x.rn ≢ 15 → (single_moved x port regs bus).kind ≡ Kind.Plain
        → SingleBase x port regs bus (single_moved x port regs bus) }
    ensures block { (x : Block) → (port : ℕ) → (regs : List ℕ) → (bus : Bus) → length regs ≡ 27
        → (block_moved x port regs bus).kind ≡ Kind.Plain
        → BlockBase x port regs bus (block_moved x port regs bus) }
{}
