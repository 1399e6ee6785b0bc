//! What is printed around the rows.

ghost use Rattle.std.specs.Prelude.{◌≡◌, ◌++◌, OnOk, codes, decimal};
ghost use Rattle.asm_text.specs.Appended.{Appends};
ghost use Rattle.asm_text.specs.Hex.{hex8};
ghost use Rattle.text_explained.specs.Rules.{register_text};
ghost use Rattle.justify_reports.specs.Summary.{AreFactRows, counts_text, fact_row, facts_text};
ghost use Rattle.justify_reports.specs.Summary.{false_count, false_text, follows_count, is_false};
ghost use Rattle.justify_reports.specs.Summary.{is_following, others_text, range_text, runs_text};
ghost use Rattle.justify_reports.specs.Summary.{summary_text};
ghost use Rattle.justify_reports.specs.Summary.{theorem_text, unseen_text};

use crate::rows::{Row, Verdict};
use arm2_decode::Register;
use asm_text::hex8;
use known_places::OnTrust;
use known_words::Given;
use std::alloc::AllocError;
use text_rows::{put, put_decimal};

// What is on trust of every handler.
const OTHERS: &[u8] =
    b"On trust too: code unchanged, no exception or stop, the class of leave, where\n\
    returns, stated jumps and calls go, ways of branches, cycles of multiplies.\n";

/// What is said behind the rows.
#[derive(Clone, Copy)]
pub(crate) struct Summary<'a> {
    pub(crate) left: &'a Option<OnTrust>,
    pub(crate) rows: &'a [Row],
    pub(crate) given: &'a [Given],
    /// In ticks.
    pub(crate) bound: u64,
    /// The ticks of a DMA burst.
    pub(crate) price: u32,
}

fn put_register(out: &mut Vec<u8>, register: Register) -> Result<(), AllocError>
    ensures { OnOk result (out.new.items ≡ out.old.items ++ register_text register) }
{
    put(out, b"R")?;
    put_decimal(out, u64::from(register.number()))
}

fn put_word(out: &mut Vec<u8>, word: u32) -> Result<(), AllocError>
    ensures { OnOk result (out.new.items ≡ out.old.items ++ (codes " = " ++ hex8 word)) }
{
    put(out, b" = ")?;
    put(out, &hex8(word))
}

fn put_ends(out: &mut Vec<u8>, low: u32, high: u32) -> Result<(), AllocError>
    ensures { OnOk result
        (out.new.items ≡ out.old.items ++ (codes " from " ++ (hex8 low ++ (codes " to " ++ hex8 high)))) }
{
    put(out, b" from ")?;
    put(out, &hex8(low))?;
    put(out, b" to ")?;
    put(out, &hex8(high))
}

fn put_range(out: &mut Vec<u8>, low: u32, high: u32) -> Result<(), AllocError>
    ensures { OnOk result (out.new.items ≡ out.old.items ++ range_text low high) }
{
    if low == high {
        return put_word(out, low);
    }
    put_ends(out, low, high)
}

fn put_fact(out: &mut Vec<u8>, given: Given) -> Result<(), AllocError>
    ensures { OnOk result (out.new.items ≡ out.old.items ++ fact_row given) }
{
    put(out, b"given ")?;
    put_register(out, given.register)?;
    put_range(out, given.low, given.high)?;
    put(out, b"\n")
}

/// Adds a row for each fact. `AllocError`: an allocation failed.
pub(crate) fn put_facts(out: &mut Vec<u8>, given: &[Given]) -> Result<(), AllocError>
    ensures { OnOk result (Appends (AreFactRows given.now) out.old.items out.new.items) }
{
    for fact in given {
        put_fact(out, *fact)?;
    }
    Ok(())
}

fn is_following(verdict: Verdict) -> bool
    ensures { result ≡ is_following verdict }
{
    match verdict {
        Verdict::Follows => true,
        Verdict::OnTrust | Verdict::False => false,
    }
}

fn is_false(verdict: Verdict) -> bool
    ensures { result ≡ is_false verdict }
{
    match verdict {
        Verdict::False => true,
        Verdict::Follows | Verdict::OnTrust => false,
    }
}

/// How many entries follow.
pub(crate) fn follows_count(rows: &[Row]) -> usize
    ensures { result ≡ follows_count rows.now }
{
    rows.iter().filter(|row| is_following(row.verdict)).count()
}

/// How many say `FALSE`.
pub(crate) fn false_count(rows: &[Row]) -> usize
    ensures { result ≡ false_count rows.now }
{
    rows.iter().filter(|row| is_false(row.verdict)).count()
}

fn unseen_text(left: &Option<OnTrust>) -> &'static [u8]
    ensures { result.now ≡ unseen_text left.now }
{
    match left {
        Some(_) => b"",
        None => b"Nothing is seen of the registers along this handler: all is on trust.\n",
    }
}

fn put_given(out: &mut Vec<u8>, count: usize) -> Result<(), AllocError>
    ensures { OnOk result (out.new.items
        ≡ out.old.items ++ (codes "given " ++ (decimal count ++ codes " of the registers at the entry"))) }
{
    put(out, b"given ")?;
    put_decimal(out, count as u64)?;
    put(out, b" of the registers at the entry")
}

fn put_facts_text(out: &mut Vec<u8>, given: &[Given]) -> Result<(), AllocError>
    ensures { OnOk result (out.new.items ≡ out.old.items ++ facts_text given.now) }
{
    match given {
        [] => put(out, b"without facts at the entry"),
        [_, ..] => put_given(out, given.len()),
    }
}

fn put_false(out: &mut Vec<u8>, count: usize) -> Result<(), AllocError>
    ensures { OnOk result (out.new.items ≡ out.old.items ++ false_text count) }
{
    if count == 0 {
        return Ok(());
    }
    put_decimal(out, count as u64)?;
    put(out, b" FALSE, ")
}

fn put_counts(out: &mut Vec<u8>, rows: &[Row], given: &[Given]) -> Result<(), AllocError>
    ensures { OnOk result (out.new.items ≡ out.old.items ++ counts_text rows.now given.now) }
{
    put_decimal(out, follows_count(rows) as u64)?;
    put(out, b" of ")?;
    put_decimal(out, rows.len() as u64)?;
    put(out, b" entries follow, ")?;
    put_false(out, false_count(rows))?;
    put_facts_text(out, given)?;
    put(out, b".\n")
}

fn runs_text(given: &[Given]) -> &'static [u8]
    ensures { result.now ≡ runs_text given.now }
{
    match given {
        [] => b"Every run that keeps what is on trust",
        [_, ..] => b"Every run that begins as given and keeps what is on trust",
    }
}

fn put_theorem(out: &mut Vec<u8>, given: &[Given], bound: u64, price: u32) -> Result<(), AllocError>
    ensures { OnOk result (out.new.items ≡ out.old.items ++ theorem_text given.now bound price) }
{
    put(out, runs_text(given))?;
    put(out, b", without visits, takes at most\n")?;
    put_decimal(out, bound)?;
    put(out, b" ticks, and ")?;
    put_decimal(out, u64::from(price))?;
    put(out, b" more for each DMA burst.\n")
}

/// Adds what is said behind the rows. `AllocError`: an allocation failed.
pub(crate) fn put_summary(out: &mut Vec<u8>, summary: Summary<'_>) -> Result<(), AllocError>
    ensures { OnOk result (out.new.items
        ≡ out.old.items
        ++ summary_text summary.entry.left.now summary.entry.rows.now summary.entry.given.now
        summary.entry.bound summary.entry.price) }
{
    put(out, b"\n")?;
    put(out, unseen_text(summary.left))?;
    put(out, OTHERS)?;
    put_counts(out, summary.rows, summary.given)?;
    put_theorem(out, summary.given, summary.bound, summary.price)
}
