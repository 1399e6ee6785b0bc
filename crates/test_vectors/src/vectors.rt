//! Vectors, one after the other.

ghost use Rattle.std.specs.Prelude.{◌≡◌, ◌<◌, ◌++◌, ℕ, List, MatchResult, codes, false, map, true};
ghost use Rattle.std.specs.Io.KnownBytes.{Appends};
ghost use Rattle.outputs.specs.OnTheWay.{Adds};
ghost use Rattle.outputs.specs.Output.{FailsSince, TakesFront};
ghost use Rattle.arm2_effect.specs.Modes.{r15_in};
ghost use Rattle.arm2_exec.specs.Step.{address_in, fetched};
ghost use Rattle.assembler.specs.ShownLines.{IsShown};
ghost use Rattle.bus_ticks.specs.Prices.{ahead_of};
ghost use Rattle.memc.specs.Memory.{Memory};
ghost use Rattle.json_trace.specs.StepLine.{memory_word};
ghost use Rattle.test_vectors.specs.Shape.{is_store};
ghost use Rattle.test_vectors.specs.Vector.{AreVectors, IsName, IsVector, IsVectorArray, opening};
ghost use Rattle.test_vectors.specs.Vector.{state_value};
ghost use Rattle.test_vectors.specs.Writing.{FewWords, end_text, front_text, place_addresses, shown_at};

use crate::bus_use::{is_store, settled};
use crate::cycles::put_cycles;
use crate::place::Place;
use crate::planned_use::planned_use;
use crate::setting::{clear, set_up};
use crate::shown_words::{ShownWord, ShownWords, shown_words};
use crate::states::{put_ram, put_registers};
use arm2_exec::{Input, Machine};
use assembler::disassemble;
use bitflags::Flags;
use bus_ticks::{SPACE_END, ahead_of};
use ioc::Lines;
use itoa::Buffer;
use json_trace::memory_word;
use memc::Memc;
use outputs::{Output, OutputFault, Page};

/// The most vectors that are printed at once.
pub const MOST_VECTORS: u32 = 1_000_000;

// What comes from outside in a vector's step: nothing.
fn no_input() -> Input {
    Input {
        bursts: 0,
        lines: Lines::empty(),
        port: 0,
    }
}

// The line of a word, after a blank.
fn put_line<O: Output>(out: &mut O, page: &mut Page, word: u32, at: u32)
    ensures { (line : List ℕ) × IsShown word at line
        × Adds O.taken O.failures out.old page.old out.new page.new (codes " " ++ line) }
{
    let line = disassemble(word, at);
    page.put(out, b" ");
    page.put(out, line.items());
}

// The name of a vector: its number, and the line of the word that is next.
fn put_name<O: Output>(out: &mut O, page: &mut Page, machine: &Machine, number: u32)
    ensures { (name : List ℕ)
        × IsName number (fetched machine.now.bus.memc (r15_in machine.now.regs)) (address_in machine.now.regs) name
        × Adds O.taken O.failures out.old page.old out.new page.new name }
{
    page.put(out, Buffer::new().format(number).as_bytes());
    match machine.fetched() {
        Some(word) => put_line(out, page, word, machine.address()),
        None => {}
    }
}

// The front of a vector: its name, and the registers before its step.
fn put_front<O: Output>(out: &mut O, page: &mut Page, machine: &Machine, number: u32)
    ensures { (name : List ℕ)
        × IsName number (fetched machine.now.bus.memc (r15_in machine.now.regs)) (address_in machine.now.regs) name
        × Adds O.taken O.failures out.old page.old out.new page.new (front_text name machine.now.regs) }
{
    page.put(out, b"{\"name\":\"");
    put_name(out, page, machine, number);
    page.put(out, b"\",\"initial\":");
    put_registers(out, page, machine.registers());
}

// The words before the step. Only a store changes memory: but for one they are still there.
fn initial_words(memc: &Memc, place: Place, before: ShownWords) -> ShownWords
    requires below { place.at < SPACE_END }
    requires few { FewWords place.done }
    ensures { (m : Memory) → (is_store place.done ≡ false → memc.now ≡ m)
        → (is_store place.done ≡ true → before.items ≡ map (shown_at m) (place_addresses place))
        → result.items ≡ map (shown_at m) (place_addresses place) }
{
    if is_store(place.done) {
        return before;
    }
    shown_words(memc, place.at, place.done, place.to)
}

// The state after a step.
fn put_state<O: Output>(out: &mut O, page: &mut Page, machine: &Machine, place: Place)
    requires below { place.at < SPACE_END }
    requires few { FewWords place.done }
    ensures { Adds O.taken O.failures out.old page.old out.new page.new
        (state_value machine.now.regs machine.now.bus.memc (place_addresses place)) }
{
    put_registers(out, page, machine.registers());
    let words = shown_words(machine.memc(), place.at, place.done, place.to);
    put_ram(out, page, &words);
}

// The end of a vector: the words before its step, the state after it, and its accesses.
fn put_end<O: Output>(
    out: &mut O,
    page: &mut Page,
    machine: &Machine,
    place: Place,
    initial: &[ShownWord],
)
    requires below { place.at < SPACE_END }
    requires few { FewWords place.done }
    ensures { (m : Memory) → (is_store place.done ≡ false → machine.now.bus.memc ≡ m)
        → memory_word m false (ahead_of place.at 8) ≡ place.ahead
        → initial.now ≡ map (shown_at m) (place_addresses place)
        → Adds O.taken O.failures out.old page.old out.new page.new (end_text m machine.now place) }
{
    put_ram(out, page, initial);
    page.put(out, b",\"final\":");
    put_state(out, page, machine, place);
    page.put(out, b",\"cycles\":");
    put_cycles(out, page, machine.memc(), place);
    page.put(out, b"}");
}

// The step that a machine makes, as a vector.
fn put_vector<O: Output>(out: &mut O, page: &mut Page, machine: &mut Machine, number: u32)
    ensures { (text : List ℕ) × IsVector number text
        × Adds O.taken O.failures out.old page.old out.new page.new text }
{
    put_front(out, page, machine, number);
    let at = machine.address();
    let ahead = memory_word(machine.memc(), false, ahead_of(at, 8));
    let planned = planned_use(machine);
    let before = shown_words(machine.memc(), at, planned, at);
    let stepped = machine.step(no_input());
    let done = settled(stepped.kind, planned);
    let to = machine.address();
    let place = Place {
        done,
        at,
        ahead,
        to,
    };
    let initial = initial_words(machine.memc(), place, before);
    put_end(out, page, machine, place, &initial);
}

// What is in front of a vector.
fn put_opening<O: Output>(out: &mut O, page: &mut Page, number: u32)
    ensures { Adds O.taken O.failures out.old page.old out.new page.new (opening number) }
{
    match number {
        0 => page.put(out, b"\n"),
        _ => page.put(out, b",\n"),
    }
}

// The vectors of the numbers below one.
fn put_vectors<O: Output>(
    out: &mut O,
    page: &mut Page,
    machine: &mut Machine,
    seed: u32,
    count: u32,
)
    ensures { (text : List ℕ) × AreVectors count text
        × Adds O.taken O.failures out.old page.old out.new page.new text }
{
    for number in 0..count {
        let drawn = set_up(machine, seed, number);
        put_opening(out, page, number);
        put_vector(out, page, machine, number);
        clear(machine, drawn);
    }
}

/// Prints the vectors of a seed, by their numbers from 0 on, as an array of JSON: steps of the machine, in
/// whose logical RAM each address below 400000 has a word. It takes no memory, however many there are. The
/// vector of a number is the same however many are asked for; so is its text on every machine.
///
/// # Errors
///
/// `Failed`: the output failed. It took a front of the text then.
pub fn print_vectors<O: Output>(
    out: &mut O,
    machine: &mut Machine,
    seed: u32,
    count: u32,
) -> Result<(), OutputFault>
    ensures { (text : List ℕ) × IsVectorArray count text
        × MatchResult result
        (λ _. Appends (O.taken out.old) (O.taken out.new) text × (O.failures out.new ≡ O.failures out.old))
        (λ _. TakesFront (O.taken out.old) (O.taken out.new) text
        × FailsSince (O.failures out.old) (O.failures out.new)) }
{
    let mut page = Page::new();
    page.put(out, b"[");
    put_vectors(out, &mut page, machine, seed, count);
    page.put(out, b"\n]\n");
    page.finish(out)
}
