//! The states of a vector.

ghost use Rattle.std.specs.Prelude.{◌≤◌, ◌-◌, ◌∷◌, ◌++◌, [], codes, decimal, map};
ghost use Rattle.std.specs.List.{flat_map};
ghost use Rattle.outputs.specs.OnTheWay.{Adds};
ghost use Rattle.arm2_effect.specs.Modes.{r15_in};
ghost use Rattle.json_trace.specs.Json.{ended, member, separated};
ghost use Rattle.json_trace.specs.StepLine.{register_name};
ghost use Rattle.test_vectors.specs.Vector.{bank, r15_members, register_members};
ghost use Rattle.test_vectors.specs.Writing.{pair_of, ram_text};

use crate::cycles::put_value;
use crate::pieces::put_pieces;
use crate::shown_words::ShownWord;
use arm2_decode::Register;
use arm2_effect::{Mode, Reg, Registers, mode_of};
use itoa::Buffer;
use json_trace::{bank_suffix, flags_text, mode_name};
use outputs::{Output, Page};

// A register of a mode with its word, and a comma.
fn put_register<O: Output>(out: &mut O, page: &mut Page, mode: Mode, number: u32, word: u32)
    ensures { Adds O.taken O.failures out.old page.old out.new page.new
        (ended (member (register_name mode number) (decimal word) ∷ [])) }
{
    put_pieces(
        out,
        page,
        &[
            b"\"R",
            Buffer::new().format(number).as_bytes(),
            bank_suffix(mode).as_bytes(),
            b"\":",
            Buffer::new().format(word).as_bytes(),
            b",",
        ],
    );
}

// The registers of a mode's bank, from one on up to R14, each with a comma.
fn put_bank<O: Output>(out: &mut O, page: &mut Page, registers: &Registers, mode: Mode, first: u32)
    requires { first ≤ 15 }
    ensures { Adds O.taken O.failures out.old page.old out.new page.new
        (ended (bank mode registers.now first (15 - first))) }
{
    for k in 0..15 - first {
        let number = first + k;
        put_register(
            out,
            page,
            mode,
            number,
            registers.read(mode, Register::of(number)),
        );
    }
}

// R15, its mode and its flags, each with a comma.
fn put_r15<O: Output>(out: &mut O, page: &mut Page, r15: u32)
    ensures { Adds O.taken O.failures out.old page.old out.new page.new (ended (r15_members r15)) }
{
    put_pieces(
        out,
        page,
        &[
            b"\"R15\":",
            Buffer::new().format(r15).as_bytes(),
            b",\"mode\":\"",
            mode_name(mode_of(r15)).as_bytes(),
            b"\",\"flags\":\"",
            flags_text(r15).as_bytes(),
            b"\",",
        ],
    );
}

/// Puts the front of a state on its way: its registers, each with a comma.
pub(crate) fn put_registers<O: Output>(out: &mut O, page: &mut Page, registers: &Registers)
    ensures { Adds O.taken O.failures out.old page.old out.new page.new
        (codes "{" ++ ended (register_members registers.now)) }
{
    page.put(out, b"{");
    put_bank(out, page, registers, Mode::User, 0);
    put_bank(out, page, registers, Mode::Fiq, 8);
    put_bank(out, page, registers, Mode::Irq, 13);
    put_bank(out, page, registers, Mode::Svc, 13);
    put_r15(out, page, registers.get(Reg::R15));
}

fn put_pair<O: Output>(out: &mut O, page: &mut Page, word: &ShownWord)
    ensures { Adds O.taken O.failures out.old page.old out.new page.new (pair_of word.now) }
{
    page.put(out, b"[");
    page.put(out, Buffer::new().format(word.address).as_bytes());
    page.put(out, b",");
    put_value(out, page, word.word);
    page.put(out, b"]");
}

// Each word after a comma.
fn put_others<O: Output>(out: &mut O, page: &mut Page, words: &[ShownWord])
    ensures { Adds O.taken O.failures out.old page.old out.new page.new
        (flat_map (λ word. codes "," ++ pair_of word) words.now) }
{
    for word in words {
        page.put(out, b",");
        put_pair(out, page, word);
    }
}

// The words, with commas between them.
fn put_words<O: Output>(out: &mut O, page: &mut Page, words: &[ShownWord])
    ensures { Adds O.taken O.failures out.old page.old out.new page.new
        (separated (map pair_of words.now)) }
{
    match words {
        [] => {}
        [first, others @ ..] => {
            put_pair(out, page, first);
            put_others(out, page, others);
        }
    }
}

/// Puts the end of a state on its way: its words.
pub(crate) fn put_ram<O: Output>(out: &mut O, page: &mut Page, words: &[ShownWord])
    ensures { Adds O.taken O.failures out.old page.old out.new page.new (ram_text words.now) }
{
    page.put(out, b"\"ram\":[");
    put_words(out, page, words);
    page.put(out, b"]}");
}
