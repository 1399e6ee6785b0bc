ghost use Rattle.std.specs.Prelude.{◌≡◌, ◌⊎◌, ℕ, IfOk, IfSome, OnOk, Some};
ghost use Rattle.text_draft.specs.Candidates.{AreCandidates, HasWord, IsLiteral, IsNamedAt, Names, is_adr};
ghost use Rattle.text_draft.specs.Candidates.{named_by, named_in};
ghost use Rattle.text_draft.specs.Exploring.{Gains};

use crate::counted::immediate;
use arm2_decode::{DataImmediate, Instr, Operation};
use arm2_transfer::address_by;
use bus_ticks::ahead_of;
use image::Image;
use std::alloc::{AllocError, Global};
use word_shapes::{instr_at, keeps_return_address};

fn is_adr(x: &DataImmediate) -> bool
    ensures { result ≡ is_adr x.now }
{
    x.rn.is_pc() && (x.opcode.is_add() || x.opcode.is_sub())
}

// The address by PC that an operation at an address makes: by ADD or SUB, or by MOV R14,PC.
fn named_by(at: u32, operation: &Operation) -> Option<u32>
    ensures { result ≡ named_by at operation.now }
{
    match operation {
        Operation::DataImmediate(x) if is_adr(x) => {
            Some(address_by(true, x.opcode.is_add(), ahead_of(at, 8), immediate(x)))
        }
        Operation::DataRegister(_) if keeps_return_address(operation) => Some(ahead_of(at, 8)),
        Operation::Multiply(_)
        | Operation::DataRegister(_)
        | Operation::DataRegisterShift(_)
        | Operation::DataImmediate(_)
        | Operation::SingleImmediate(_)
        | Operation::SingleRegister(_)
        | Operation::Block(_)
        | Operation::Branch(_)
        | Operation::Swi(_)
        | Operation::UndefinedTransfer(_)
        | Operation::CoprocessorTransfer(_)
        | Operation::Coprocessor(_) => None,
    }
}

// The address that an instruction there makes: one under NV makes none.
fn named_in(at: u32, instr: &Instr) -> Option<u32>
    ensures { result ≡ named_in at instr.now }
{
    if instr.cond.is_never() {
        return None;
    }
    named_by(at, &instr.operation)
}

// The address that the word at an address names.
fn named_at(image: &Image, at: u32) -> Option<u32>
    ensures some { IfSome result (Names image.now at) }
    ensures only { (to : ℕ) → Names image.now at to → result ≡ Some to }
{
    let instr = instr_at(image, at)?;
    named_in(at, &instr)
}

// Adds an address where the image has a word.
fn push_word(out: &mut Vec<u32>, image: &Image, to: u32) -> Result<(), AllocError>
    ensures { OnOk result (Gains (λ a. HasWord image.now a × (to ≡ a)) out.old.items out.new.items) }
{
    match image.word_at(to) {
        Some(_word) => {
            out.push(to)?;
            Ok(())
        }
        None => Ok(()),
    }
}

// Adds what the word at an address names.
fn push_named(out: &mut Vec<u32>, image: &Image, at: u32) -> Result<(), AllocError>
    ensures { OnOk result
        (Gains (λ a. HasWord image.now a × Names image.now at a) out.old.items out.new.items) }
{
    match named_at(image, at) {
        Some(to) => push_word(out, image, to),
        None => Ok(()),
    }
}

// Adds what the words at some addresses name.
fn push_all_named(out: &mut Vec<u32>, image: &Image, addresses: &[u32]) -> Result<(), AllocError>
    ensures { OnOk result
        (Gains (λ a. HasWord image.now a × IsNamedAt image.now addresses.now a)
        out.old.items out.new.items) }
{
    for at in addresses {
        push_named(out, image, *at)?;
    }
    Ok(())
}

// Adds the words that are addresses of words.
fn push_literals(out: &mut Vec<u32>, image: &Image, words: &[(u32, u32)]) -> Result<(), AllocError>
    ensures { OnOk result
        (Gains (λ a. HasWord image.now a × IsLiteral words.now a) out.old.items out.new.items) }
{
    for (_, word) in words {
        push_word(out, image, *word)?;
    }
    Ok(())
}

// Adds all of both kinds.
fn push_candidates(
    alloc: Global,
    out: &mut Vec<u32>,
    image: &Image,
    addresses: &[u32],
) -> Result<(), AllocError>
    ensures { OnOk result
        (Gains
        (λ a. HasWord image.now a × (IsNamedAt image.now addresses.now a ⊎ IsLiteral image.now a))
        out.old.items out.new.items) }
{
    push_all_named(out, image, addresses)?;
    let words = image.listed(alloc)?;
    push_literals(out, image, &words)
}

/// The addresses of words that a word at one of these addresses names, by ADD or SUB of PC or by MOV R14,PC,
/// or that a word of the source is: ascending, each once.
pub(crate) fn find_candidates(
    alloc: Global,
    image: &Image,
    addresses: &[u32],
) -> Result<Vec<u32>, AllocError>
    ensures { IfOk result (λ found. AreCandidates image.now addresses.now found.items) }
{
    let mut found = Vec::new(alloc);
    push_candidates(alloc, &mut found, image, addresses)?;
    found.sort()?;
    found.dedup();
    Ok(found)
}
