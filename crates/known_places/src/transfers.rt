ghost use Rattle.std.specs.Prelude.{◌≡◌, ◌≤◌, ◌<◌, ◌+◌, ◌-◌, ◌*◌, ◌/◌, ◌%◌, ◌^◌, Bool, IsTrue, ℕ, List, Some};
ghost use Rattle.std.specs.Prelude.{IfSome};
ghost use Rattle.bus_ticks.specs.Worst.{IsOf, IsSpeed};
ghost use Rattle.arm2_decode.specs.Transfers.{word_count};
ghost use Rattle.arm2_transfer.specs.Block.{lowest_of};
ghost use Rattle.arm2_transfer.specs.Registers.{address_by};
ghost use Rattle.kept_runs.specs.Transfers.{HasNoOther};
ghost use Rattle.known_words.specs.Known.{IsIn, IsKnown};
ghost use Rattle.known_places.specs.Outside.{BeginsOutside, IsKnownOutside, MovesOutside};
ghost use Rattle.known_places.specs.Transfers.{HasWords, TransfersSo};
ghost use Rattle.known_places.specs.Words.{MovesIn};

use arm2_decode::{Block, Operation, SingleImmediate, SingleRegister};
use bus_ticks::{Class, IO_START, ROM_START, SPACE_END};
use known_words::{Knowledge, Known, Range, added, moved, subtracted};

/// What is known of the words that an instruction transfers.
enum Transferred {
    /// There are none.
    Nothing,
    /// It is not seen where they are.
    Unseen,
    /// From an address on, and how many.
    From(Known, u32),
}

// The bytes in which all devices have one speed.
const SPEED_BLOCK: u32 = 0x8_0000;

// Whether all addresses from the one to the other are of the class.
fn are_of(class: Class, low: u32, high: u32) -> bool
    ensures { IsTrue result → (address : ℕ) → low ≤ address → address ≤ high → IsOf class address }
{
    match class {
        Class::Any => true,
        Class::Ram | Class::Rom | Class::Io => class.is_of(low) && class.is_of(high),
        Class::Slow | Class::Medium | Class::Fast | Class::Synchronous => {
            class.is_of(low) && low / SPEED_BLOCK == high / SPEED_BLOCK
        }
    }
}

fn words_are_in(class: Class, low: u32, high: u32, words: u32) -> bool
    requires { words ≤ 16 }
    ensures { IsTrue result → (address : ℕ) → low ≤ address → address ≤ high → (store : Bool)
        → HasNoOther class (Some (record { address = address; words = words; store = store })) }
{
    let Some(last) = high.checked_add(4 * words) else {
        return false;
    };
    if SPACE_END <= last {
        return false;
    }
    are_of(class, low / 4 * 4, last)
}

// Whether it is the class of all addresses.
fn is_any(class: Class) -> bool
    ensures { IsTrue result → class ≡ Class.Any }
{
    match class {
        Class::Any => true,
        _ => false,
    }
}

// Whether words from a known address on are of the class.
fn known_words_are_in(class: Class, lowest: Known, words: u32) -> bool
    requires { words ≤ 16 }
    ensures { IsTrue result → (entry turns : List ℕ) → (address : ℕ) → IsKnown entry turns lowest address
        → (store : Bool)
        → HasNoOther class (Some (record { address = address; words = words; store = store })) }
{
    if is_any(class) {
        return true;
    }
    match lowest {
        Known::Word(word) => words_are_in(class, word.range.low, word.range.high, words),
        _ => false,
    }
}

// Whether no address from the one to the other is a device's.
fn have_no_device(low: u32, high: u32) -> bool
    ensures { IsTrue result → (address : ℕ) → low ≤ address → address ≤ high → IsOf Class.Io address → ⊥ }
{
    high < IO_START || ROM_START <= low
}

// The same of the devices of one speed.
fn have_no_speed(class: Class, low: u32, high: u32) -> bool
    ensures { IsTrue result → (address : ℕ) → low ≤ address → address ≤ high → IsSpeed class
        → IsOf class address → ⊥ }
{
    if have_no_device(low, high) {
        return true;
    }
    low / SPEED_BLOCK == high / SPEED_BLOCK && !class.is_of(low)
}

// Whether no address from the one to the other is of the class.
fn are_none_of(class: Class, low: u32, high: u32) -> bool
    ensures { IsTrue result → (address : ℕ) → low ≤ address → address ≤ high → IsOf class address → ⊥ }
{
    match class {
        Class::Any => false,
        Class::Ram => !class.is_of(low),
        Class::Rom => !class.is_of(high),
        Class::Io => have_no_device(low, high),
        Class::Slow | Class::Medium | Class::Fast | Class::Synchronous => {
            have_no_speed(class, low, high)
        }
    }
}

// Where the first word is, from an address in a range on.
fn outside_from(class: Class, range: Range) -> Option<Range>
    ensures { IfSome result (λ first. (address : ℕ) → IsIn range address → BeginsOutside class first address) }
{
    if SPACE_END <= range.high {
        return None;
    }
    let low = range.low / 4 * 4;
    let high = range.high / 4 * 4;
    if !are_none_of(class, low, high) {
        return None;
    }
    Some(Range { low, high })
}

// Where the first word is, from a known address on.
fn known_outside(class: Class, lowest: Known) -> Option<Range>
    ensures { IfSome result (IsKnownOutside class lowest) }
{
    match lowest {
        Known::Word(word) => outside_from(class, word.range),
        _ => None,
    }
}

fn single_address(before: bool, up: bool, base: Known, offset: Known) -> Known
    ensures { (entry turns : List ℕ) → (x y : ℕ) → IsKnown entry turns base x → IsKnown entry turns offset y
        → IsKnown entry turns result (address_by before up x y) }
{
    if before {
        return moved(up, base, offset);
    }
    base
}

fn without_low_bits(known: Known) -> Known
    ensures { (entry turns : List ℕ) → (word : ℕ) → IsKnown entry turns known word
        → IsKnown entry turns result (word / 4 * 4) }
{
    match known {
        Known::Word(word) => Known::between(word.range.low / 4 * 4, word.range.high / 4 * 4),
        _ => Known::Any,
    }
}

// The lowest address of a block of so many words.
fn block_address(x: &Block, words: u32, base: Known) -> Known
    requires { words ≤ 16 }
    ensures { (entry turns : List ℕ) → (word : ℕ) → IsKnown entry turns base word
        → IsKnown entry turns result (lowest_of x.now word words) }
{
    let above = added(base, Known::exactly(4));
    let size = Known::exactly(4 * words);
    if x.up {
        if x.before {
            return without_low_bits(above);
        }
        return without_low_bits(base);
    }
    if x.before {
        return without_low_bits(subtracted(base, size));
    }
    without_low_bits(subtracted(above, size))
}

fn single_immediate_transfers(x: &SingleImmediate, address: u32, known: &Knowledge) -> Transferred
    ensures so { TransfersSo (Operation.SingleImmediate x.now) address known.now result }
    ensures words { HasWords result }
{
    let base = known.first_of(8, x.rn, address);
    let lowest = single_address(x.before, x.up, base, Known::exactly(x.offset));
    Transferred::From(lowest, 1)
}

fn single_register_transfers(x: &SingleRegister, address: u32, known: &Knowledge) -> Transferred
    ensures so { TransfersSo (Operation.SingleRegister x.now) address known.now result }
    ensures words { HasWords result }
{
    let base = known.first_of(8, x.rn, address);
    let offset = known.shifted_of(x.shift, x.amount, x.rm, address);
    let lowest = single_address(x.before, x.up, base, offset);
    Transferred::From(lowest, 1)
}

fn block_transfers(x: &Block, address: u32, known: &Knowledge) -> Transferred
    ensures so { TransfersSo (Operation.Block x.now) address known.now result }
    ensures words { HasWords result }
{
    let _ = address;
    if x.rn.is_pc() {
        return Transferred::Unseen;
    }
    let words = x.word_count();
    let lowest = block_address(x, words, known.of(x.rn));
    Transferred::From(lowest, words)
}

// What the instruction at the address transfers, by what is known before it.
fn transfers_of(operation: &Operation, address: u32, known: &Knowledge) -> Transferred
    ensures so { TransfersSo operation.now address known.now result }
    ensures words { HasWords result }
{
    match operation {
        Operation::SingleImmediate(x) => single_immediate_transfers(x, address, known),
        Operation::SingleRegister(x) => single_register_transfers(x, address, known),
        Operation::Block(x) => block_transfers(x, address, known),
        Operation::Multiply(_)
        | Operation::DataRegister(_)
        | Operation::DataRegisterShift(_)
        | Operation::DataImmediate(_)
        | Operation::Branch(_)
        | Operation::Swi(_)
        | Operation::UndefinedTransfer(_)
        | Operation::CoprocessorTransfer(_)
        | Operation::Coprocessor(_) => Transferred::Nothing,
    }
}

/// Whether the words that the instruction at the address transfers are seen to be of the class, by what is
/// known before it.
pub(crate) fn moves_in(class: Class, operation: &Operation, address: u32, known: &Knowledge) -> bool
    ensures { IsTrue result → MovesIn class operation.now address known.now }
{
    match transfers_of(operation, address, known) {
        Transferred::Nothing => true,
        Transferred::Unseen => false,
        Transferred::From(lowest, words) => known_words_are_in(class, lowest, words),
    }
}

/// At which addresses the first word is that the instruction at the address transfers, where it is seen that
/// none of them is of the class, by what is known before it.
pub(crate) fn moves_outside(
    class: Class,
    operation: &Operation,
    address: u32,
    known: &Knowledge,
) -> Option<Range>
    ensures { IfSome result (MovesOutside class operation.now address known.now) }
{
    match transfers_of(operation, address, known) {
        Transferred::Nothing | Transferred::Unseen => None,
        Transferred::From(lowest, _) => known_outside(class, lowest),
    }
}
