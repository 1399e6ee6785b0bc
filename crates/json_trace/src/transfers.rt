//! The words that a step moves between registers and memory.

ghost use Rattle.std.specs.Prelude.{◌≡◌, ◌<◌, ◌≤◌, ◌++◌, IfSome, OnOk, map, string_bytes};
ghost use Rattle.bus_ticks.specs.Prices.{word_address};
ghost use Rattle.arm2_exec.specs.Step.{Step};
ghost use Rattle.arm2_exec.specs.State.{State};
ghost use Rattle.arm2_exec.specs.declared.machine.Input.{Input};
ghost use Rattle.arm2_exec.specs.declared.machine.Stepped.{Stepped};
ghost use Rattle.json_trace.specs.Facts.{carried};
ghost use Rattle.json_trace.specs.Json.{array, separated};
ghost use Rattle.json_trace.specs.StepLine.{memory_word, size_of, transfer_kind, transfer_value};
ghost use Rattle.json_trace.specs.StepLine.{transfers_in};
ghost use Rattle.json_trace.specs.Planned.{comma, moved_words, planned_by, planned_if, words_in_space};
ghost use Rattle.json_trace.specs.Planned.{words_of};

use crate::moved_words::Transfers;
use crate::values::word_or_null;
use arm2_decode::{Field, Instr, Operation, bit_of_word, decode};
use arm2_effect::{Reg, Registers, mode_of};
use arm2_exec::Machine;
use arm2_transfer::{address_by, lowest_of};
use bus_ticks::SPACE_END;
use memc::{Memc, Spot};
use std::alloc::AllocError;
use std::fmt::Write;

// So many words at an address; none at one of 2^26 or more.
fn words_at(store: bool, address: u32, words: u32) -> Option<Transfers>
    ensures words { result ≡ words_in_space store address words }
    ensures few { words ≤ 16 → IfSome result (λ t. t.words ≤ 16) }
{
    if address >= SPACE_END {
        return None;
    }
    Some(Transfers {
        store,
        address,
        words,
    })
}

/// What an instruction moves, if it is carried out and no word is refused.
pub fn planned_by(operation: &Operation, registers: &Registers) -> Option<Transfers>
    ensures words { result ≡ planned_by operation.now registers.now }
    ensures few { IfSome result (λ t. t.words ≤ 16) }
{
    match operation {
        Operation::SingleImmediate(x) => {
            let base = registers.first_of(x.rn, 8);
            words_at(!x.load, address_by(x.before, x.up, base, x.offset), 1)
        }
        Operation::SingleRegister(x) => {
            let base = registers.first_of(x.rn, 8);
            let offset = registers.shifted_by_amount(x.shift, x.amount, x.rm).value;
            words_at(!x.load, address_by(x.before, x.up, base, offset), 1)
        }
        Operation::Block(x) => {
            let base = registers.read(mode_of(registers.get(Reg::R15)), x.rn);
            words_at(!x.load, lowest_of(x, base, x.word_count()), x.word_count())
        }
        _ => None,
    }
}

// The same of one with its condition.
fn planned_if(instr: &Instr, registers: &Registers) -> Option<Transfers>
    ensures { result ≡ planned_if instr.now registers.now }
{
    if registers.passes(instr.cond) {
        return planned_by(&instr.operation, registers);
    }
    None
}

/// What the machine's next step moves, where it takes no exception and does not stop.
pub fn planned(machine: &Machine) -> Option<Transfers>
    ensures { (i : Input) (stepped : Stepped) (after : State) (step : Step machine.now i stepped after)
        → transfers_in step.moved.accesses ≡ carried stepped.kind result }
{
    let Some(word) = machine.fetched() else {
        return None;
    };
    match decode(word) {
        Ok(instr) => planned_if(&instr, machine.registers()),
        Err(_) => None,
    }
}

/// The word of RAM or ROM to which a privileged load or store at an address goes.
pub fn memory_word(memc: &Memc, store: bool, address: u32) -> Option<u32>
    requires { address < SPACE_END }
    ensures { result ≡ memory_word memc.now store address }
{
    match memc.locate(address, false, store) {
        Ok(spot @ (Spot::Ram(_) | Spot::Rom(_))) => Some(memc.load(spot)),
        _ => None,
    }
}

/// `store` or `load`.
pub fn transfer_kind(store: bool) -> &'static str
    ensures { result.now ≡ transfer_kind store }
{
    match store {
        true => "store",
        false => "load",
    }
}

// The bytes that each transfer of a word moves.
fn size_of(word: Option<u32>) -> u32
    ensures { result ≡ size_of word }
{
    match word {
        Some(word) if Field::<27, 26>::get(word) == 1 && bit_of_word(word, 22) => 1,
        _ => 4,
    }
}

fn put_transfer(
    out: &mut String,
    word: Option<u32>,
    memc: &Memc,
    store: bool,
    address: u32,
) -> Result<(), AllocError>
    requires { address < SPACE_END }
    ensures { OnOk result
        (string_bytes out.new
        ≡ string_bytes out.old ++ transfer_value word memc.now (store, address)) }
{
    let kind = transfer_kind(store);
    let place = word_or_null(Some(address));
    let size = size_of(word);
    let memory = word_or_null(memory_word(memc, store, address));
    write!(
        out,
        "{{\"kind\":\"{kind}\",\"word_address\":{place},\"size\":{size},\"memory\":{memory}}}"
    )
}

// A comma in front of any item but the first.
fn put_comma(out: &mut String, number: u32) -> Result<(), AllocError>
    ensures { OnOk result (string_bytes out.new ≡ string_bytes out.old ++ comma number) }
{
    match number {
        0 => Ok(()),
        _ => out.push_str(","),
    }
}

/// The address of a word of a transfer.
pub fn word_place(address: u32, number: u32) -> u32
    ensures place { result ≡ word_address address number }
    ensures below { result < SPACE_END }
{
    let bytes = 4 * (u64::from(address / 4) + u64::from(number));
    (bytes % u64::from(SPACE_END)) as u32
}

// The words, with commas between them.
fn put_moved(
    out: &mut String,
    word: Option<u32>,
    memc: &Memc,
    moved: Transfers,
) -> Result<(), AllocError>
    ensures { OnOk result
        (string_bytes out.new
        ≡ string_bytes out.old ++ separated (map (transfer_value word memc.now) (words_of moved))) }
{
    for number in 0..moved.words {
        put_comma(out, number)?;
        let address = word_place(moved.address, number);
        put_transfer(out, word, memc, moved.store, address)?;
    }
    Ok(())
}

// The words that were planned, if any.
fn put_planned(
    out: &mut String,
    word: Option<u32>,
    memc: &Memc,
    transfers: Option<Transfers>,
) -> Result<(), AllocError>
    ensures { OnOk result
        (string_bytes out.new
        ≡ string_bytes out.old ++ separated (map (transfer_value word memc.now) (moved_words transfers))) }
{
    match transfers {
        Some(moved) => put_moved(out, word, memc, moved),
        None => Ok(()),
    }
}

/// Adds the words that an instruction moved, as a list.
///
/// An error says that an allocation failed; the text is then a front of what was to be added.
pub(crate) fn put_transfers(
    out: &mut String,
    word: Option<u32>,
    memc: &Memc,
    transfers: Option<Transfers>,
) -> Result<(), AllocError>
    ensures { OnOk result
        (string_bytes out.new
        ≡ string_bytes out.old ++ array (map (transfer_value word memc.now) (moved_words transfers))) }
{
    out.push_str("[")?;
    put_planned(out, word, memc, transfers)?;
    out.push_str("]")?;
    Ok(())
}
