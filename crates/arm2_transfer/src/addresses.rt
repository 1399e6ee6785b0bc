//! Where the words of a transfer lie.

ghost use Rattle.std.specs.Prelude.{◌≡◌, ◌≤◌};
ghost use Rattle.arm2_transfer.specs.Block.{lowest_of};
ghost use Rattle.arm2_transfer.specs.Registers.{address_by, moved_by};

use arm2_decode::Block;

/// A base and an offset in bytes, on 32 bits: `up` says that the offset is added, not subtracted.
#[inline(always)]
pub(crate) fn moved_by(up: bool, base: u32, offset: u32) -> u32
    ensures { result ≡ moved_by up base offset }
{
    if up {
        base.wrapping_add(offset)
    } else {
        base.wrapping_sub(offset)
    }
}

/// The address of a single transfer in bytes, of 32 bits: the base, which `before` says is moved by the
/// offset before the access.
#[inline(always)]
pub fn address_by(before: bool, up: bool, base: u32, offset: u32) -> u32
    ensures { result ≡ address_by before up base offset }
{
    if before {
        moved_by(up, base, offset)
    } else {
        base
    }
}

/// The lowest address of a block of so many words from its base, in bytes: of 32 bits, a multiple of 4.
#[inline(always)]
pub fn lowest_of(transfer: &Block, base: u32, words: u32) -> u32
    requires { words ≤ 16 }
    ensures { result ≡ lowest_of transfer.now base words }
{
    let lowest = match (transfer.up, transfer.before) {
        (true, true) => base.wrapping_add(4),
        (true, false) => base,
        (false, true) => base.wrapping_sub(4 * words),
        (false, false) => base.wrapping_sub(4 * words).wrapping_add(4),
    };
    lowest / 4 * 4
}
