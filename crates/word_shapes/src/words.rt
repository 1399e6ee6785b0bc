ghost use Rattle.std.specs.Prelude.{◌≡◌, ◌↔◌, IfSome, IsTrue, Some};
ghost use Rattle.arm2_decode.specs.Table.{Means};
ghost use Rattle.arm2_decode.specs.declared.instr.Instr.{Instr};
ghost use Rattle.arm2_decode.specs.Writers.{is_transfer};
ghost use Rattle.word_shapes.specs.Shapes.{is_odd_writer, is_table_jump, keeps_return_address};
ghost use Rattle.word_shapes.specs.Shapes.{leaves_flags, sets_link_by_pc};
ghost use Rattle.word_shapes.specs.Words.{HasInstr, HasShape, MayDo};

use crate::shapes::{
    is_odd_writer, is_table_jump, may_keep_return_address, may_set_link_by_pc, may_transfer,
    may_write_oddly, restores_flags,
};
use arm2_decode::{Instr, decode};
use image::Image;

// The instruction of a word.
fn decoded(word: u32) -> Option<Instr>
    ensures some { IfSome result (Means word) }
    ensures only { (i : Instr) → Means word i → result ≡ Some i }
{
    match decode(word) {
        Ok(instr) => Some(instr),
        Err(_) => None,
    }
}

/// The instruction at an address, if the image has one there.
pub fn instr_at(image: &Image, at: u32) -> Option<Instr>
    ensures some { IfSome result (HasInstr image.now at) }
    ensures only { (i : Instr) → HasInstr image.now at i → result ≡ Some i }
{
    match image.word_at(at) {
        Some(word) => decoded(word),
        None => None,
    }
}

/// Whether the image has a word at an address that loads or stores.
pub fn is_transfer_at(image: &Image, at: u32) -> bool
    ensures { IsTrue result ↔ HasShape is_transfer image.now at }
{
    instr_at(image, at).is_some_and(|instr| instr.operation.is_transfer())
}

/// Whether the image has a word at an address that writes R15, other than a branch or a call, and does not
/// look like a return.
pub fn is_odd_writer_at(image: &Image, at: u32) -> bool
    ensures { IsTrue result ↔ HasShape is_odd_writer image.now at }
{
    instr_at(image, at).is_some_and(|instr| is_odd_writer(&instr.operation))
}

/// Whether the image has a word at an address that jumps into a table of branches.
pub fn is_table_jump_at(image: &Image, at: u32) -> bool
    ensures { IsTrue result ↔ HasShape is_table_jump image.now at }
{
    instr_at(image, at).is_some_and(|instr| is_table_jump(&instr.operation))
}

/// Whether the image has a word at an address that may keep the return address: its condition is not NV.
pub fn may_keep_return_address_at(image: &Image, at: u32) -> bool
    ensures { IsTrue result ↔ MayDo keeps_return_address image.now at }
{
    instr_at(image, at).is_some_and(|instr| may_keep_return_address(&instr))
}

/// Whether the image has a word at an address that may put an address by PC into R14, or load R14 from one:
/// its condition is not NV.
pub fn may_set_link_by_pc_at(image: &Image, at: u32) -> bool
    ensures { IsTrue result ↔ MayDo sets_link_by_pc image.now at }
{
    instr_at(image, at).is_some_and(|instr| may_set_link_by_pc(&instr))
}

/// Whether the image has a word at an address that may load or store: its condition is not NV.
pub fn may_transfer_at(image: &Image, at: u32) -> bool
    ensures { IsTrue result ↔ MayDo is_transfer image.now at }
{
    instr_at(image, at).is_some_and(|instr| may_transfer(&instr))
}

/// Whether the image has a word at an address that may write R15, other than a branch or a call, and does not
/// look like a return: its condition is not NV.
pub fn may_write_oddly_at(image: &Image, at: u32) -> bool
    ensures { IsTrue result ↔ MayDo is_odd_writer image.now at }
{
    instr_at(image, at).is_some_and(|instr| may_write_oddly(&instr))
}

/// Whether the image has a word at an address that restores no flags where it writes R15.
pub fn leaves_flags_at(image: &Image, at: u32) -> bool
    ensures { IsTrue result ↔ HasShape leaves_flags image.now at }
{
    instr_at(image, at).is_some_and(|instr| !restores_flags(&instr.operation))
}
