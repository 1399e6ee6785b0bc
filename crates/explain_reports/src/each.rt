//! The bounds of a handler where the word of a stated target goes to one of its destinations alone.

ghost use Rattle.std.specs.Prelude.{◌≡◌, ◌∷◌, [], ◌++◌, ◌<◌, All, IfOk, OnOk};
ghost use Rattle.asm_text.specs.Appended.{Appends};
ghost use Rattle.bus_ticks.specs.declared.space.TheConstants.{SPACE_END};
ghost use Rattle.handlers.specs.Alone.{IsAnswerOf};
ghost use Rattle.explain_reports.specs.Each.{AreEachLines, AreTargetRows, IsEachRow, answer_text};
ghost use Rattle.explain_reports.specs.Each.{destinations_at, each_row, label_in, labelled_end};
ghost use Rattle.explain_reports.specs.Each.{way_text};
ghost use Rattle.sources.specs.Lines.{AreLines};
ghost use Rattle.statement.specs.Stated.{with_destinations};
ghost use Rattle.text_rows.specs.Rows.{AreRows};
ghost use Rattle.text_rows.specs.WordLines.{numbered_at};

use asm_text::hex8;
use bus_ticks::Profile;
use handlers::{ReportFault, bound_of, fault_name};
use sources::Source;
use statement::{Statement, statements_are_stated};
use std::alloc::{AllocError, Global};
use std::collections::BTreeMap;
use text_rows::{SourceLine, put, put_address, put_decimal, put_right, section};

const HEADING: &[u8] = b"\nThe bound with one destination of a target alone:\n";

// A source that was read, its lines, and the prices.
#[derive(Clone, Copy)]
struct Sight<'a, 's, 'l> {
    read: &'a Source<'s>,
    lines: &'a BTreeMap<u32, SourceLine<'l>>,
    profile: &'a Profile,
}

// The label of the line of an address, empty where there is none.
fn label_at<'a>(lines: &BTreeMap<u32, SourceLine<'a>>, at: u32) -> &'a [u8]
    ensures { result.now ≡ label_in (numbered_at lines.now at) }
{
    match lines.get(&at) {
        Some(line) => line.label,
        None => b"",
    }
}

fn put_ticks(out: &mut Vec<u8>, bound: u64) -> Result<(), AllocError>
    ensures { OnOk result (out.new.items ≡ out.old.items ++ answer_text (Ok bound)) }
{
    put_decimal(out, bound)?;
    put(out, b" ticks")
}

// Adds the bound in ticks, or the name of the refusal.
fn put_answer(out: &mut Vec<u8>, answer: Result<u64, ReportFault>) -> Result<(), AllocError>
    ensures { OnOk result (out.new.items ≡ out.old.items ++ answer_text answer) }
{
    match answer {
        Ok(bound) => put_ticks(out, bound),
        Err(fault) => put(out, fault_name(fault)),
    }
}

// Ends a row, with a label if there is one.
fn put_labelled_end(out: &mut Vec<u8>, label: &[u8]) -> Result<(), AllocError>
    ensures { OnOk result (out.new.items ≡ out.old.items ++ labelled_end label.now) }
{
    if label.is_empty() {
        return put(out, b"\n");
    }
    put(out, b"  ")?;
    put(out, label)?;
    put(out, b"\n")
}

// Adds from where to where the word goes.
fn put_way(out: &mut Vec<u8>, at: u32, to: u32) -> Result<(), AllocError>
    ensures { OnOk result (out.new.items ≡ out.old.items ++ way_text at to) }
{
    put_address(out, at)?;
    put(out, b" to ")?;
    put(out, &hex8(to))
}

fn put_row(
    out: &mut Vec<u8>,
    at: u32,
    to: u32,
    label: &[u8],
    answer: Result<u64, ReportFault>,
) -> Result<(), AllocError>
    ensures { OnOk result (out.new.items ≡ out.old.items ++ each_row at to label.now answer) }
{
    let mut text = Vec::new(*out.allocator());
    put_answer(&mut text, answer)?;
    put_way(out, at, to)?;
    put(out, b"  ")?;
    put_right(out, &text, 15)?;
    put_labelled_end(out, label)
}

// The bound, or why there is none, where the word at an address goes to a destination alone.
fn answer_of(
    alloc: Global,
    sight: Sight<'_, '_, '_>,
    statement: &mut Statement,
    at: u32,
    to: u32,
) -> Result<Result<u64, ReportFault>, AllocError>
    requires { to < SPACE_END }
    ensures same { OnOk result (statement.new ≡ statement.old) }
    ensures answer { IfOk result
        (IsAnswerOf sight.entry.read.now.image (with_destinations statement.old at (to ∷ []))
        sight.entry.profile.now) }
{
    statements_are_stated(statement);
    let mut only = vec![in alloc; to]?;
    statement.swap_destinations(at, &mut only);
    let answer = bound_of(alloc, &sight.read.image, statement, sight.profile)?;
    statement.swap_destinations(at, &mut only);
    Ok(answer)
}

// Adds the row of the word at an address and a destination.
fn put_destination(
    out: &mut Vec<u8>,
    sight: Sight<'_, '_, '_>,
    statement: &mut Statement,
    at: u32,
    to: u32,
) -> Result<(), AllocError>
    requires small { to < SPACE_END }
    requires lines { AreLines sight.read.now sight.lines.now }
    ensures same { OnOk result (statement.new ≡ statement.old) }
    ensures row { OnOk result
        (Appends (IsEachRow sight.entry.read.now statement.old sight.entry.profile.now at to)
        out.old.items out.new.items) }
{
    let answer = answer_of(*out.allocator(), sight, statement, at, to)?;
    put_row(out, at, to, label_at(sight.lines, to), answer)
}

fn put_destinations(
    out: &mut Vec<u8>,
    sight: Sight<'_, '_, '_>,
    statement: &mut Statement,
    at: u32,
    to: &[u32],
) -> Result<(), AllocError>
    requires small { All (λ a. a < SPACE_END) to.now }
    requires lines { AreLines sight.read.now sight.lines.now }
    ensures same { OnOk result (statement.new ≡ statement.old) }
    ensures rows { OnOk result
        (Appends (AreRows (IsEachRow sight.entry.read.now statement.old sight.entry.profile.now at) to.now)
        out.old.items out.new.items) }
{
    for destination in to {
        put_destination(out, sight, statement, at, *destination)?;
    }
    Ok(())
}

// A copy of the destinations that are stated for the word at an address.
fn destinations_at(alloc: Global, statement: &Statement, at: u32) -> Result<Vec<u32>, AllocError>
    ensures value { IfOk result (λ to. to.items ≡ destinations_at statement.now at) }
    ensures small { IfOk result (λ to. All (λ a. a < SPACE_END) to.items) }
{
    let mut to = Vec::new(alloc);
    if let Some(target) = statement.target_at(at) {
        to.extend_from_slice(target.to())?;
    }
    Ok(to)
}

// Adds the rows of the destinations of a target, which is stated for the word at an address.
fn put_target(
    out: &mut Vec<u8>,
    sight: Sight<'_, '_, '_>,
    statement: &mut Statement,
    at: u32,
) -> Result<(), AllocError>
    requires { AreLines sight.read.now sight.lines.now }
    ensures same { OnOk result (statement.new ≡ statement.old) }
    ensures rows { OnOk result
        (Appends (AreTargetRows sight.entry.read.now statement.old sight.entry.profile.now at)
        out.old.items out.new.items) }
{
    let to = destinations_at(*out.allocator(), statement, at)?;
    put_destinations(out, sight, statement, at, &to)
}

fn put_targets(
    out: &mut Vec<u8>,
    sight: Sight<'_, '_, '_>,
    statement: &mut Statement,
    addresses: &[u32],
) -> Result<(), AllocError>
    requires { AreLines sight.read.now sight.lines.now }
    ensures { OnOk result
        (Appends (AreRows (AreTargetRows sight.entry.read.now statement.old sight.entry.profile.now)
        addresses.now) out.old.items out.new.items) }
{
    for at in addresses {
        put_target(out, sight, statement, *at)?;
    }
    Ok(())
}

/// The bounds of the handler of a source and of what is stated of it where the word of a stated target
/// goes to one of its destinations alone: a row for each destination of each target, in the order of the
/// statement, with the address of the word, the destination, the bound in ticks or the name of the refusal
/// that there is then, and the destination's label. Nothing where no target has a destination.
///
/// It builds and bounds the handler anew for each destination, so it takes as many times as long as a bound.
/// An error leaves the statement without a destination or with one alone.
///
/// # Errors
///
/// An allocation failed.
pub(crate) fn each_lines(
    alloc: Global,
    read: &Source<'_>,
    statement: &mut Statement,
    profile: &Profile,
) -> Result<Vec<u8>, AllocError>
    ensures { IfOk result (λ text. AreEachLines read.now statement.old profile.now text.items) }
{
    let lines = read.lines(alloc)?;
    let sight = Sight {
        read,
        lines: &lines,
        profile,
    };
    let addresses: Vec<u32> = statement.targets().keys().copied().collect(alloc)?;
    let mut rows = Vec::new(alloc);
    put_targets(&mut rows, sight, statement, &addresses)?;
    section(alloc, HEADING, &rows)
}
