ghost use Rattle.std.specs.Prelude.{◌≡◌, ◌≢◌, ◌&&◌, Err, IfOk, MatchOption, true, false};
ghost use Rattle.std.specs.List.{list_all};
ghost use Rattle.std.specs.Map.{keys_of};
ghost use Rattle.toml.specs.View.{table_view};
ghost use Rattle.image.specs.Labels.{address_of};
ghost use Rattle.toml_reading.specs.Documents.{are_distinct};
ghost use Rattle.toml_reading.specs.Readings.{and_then, reading_map};
ghost use Rattle.statement.specs.ReadingParts.{AreBounded, AreRead, limits_of, pair_of, parts_in, rules_of};
ghost use Rattle.statement.specs.ReadingParts.{words_of};
ghost use Rattle.statement.specs.Statement.{IsStatement, apart_in, ends_in, frame_in, leave_in};
ghost use Rattle.statement.specs.Statement.{leaving_in, limits_in, parts_of, placed_loops, returns_in};
ghost use Rattle.statement.specs.Statement.{rules_and_limits, stated_loops_in, stated_once, statement_of};
ghost use Rattle.statement.specs.Statement.{words_in};

use crate::apart::ApartWords;
use crate::entries::{address_in, leave_named_at, returns_named_at};
use crate::faults::{Read, StatementFault};
use crate::stated::{BaseRule, Loop, Returns, StatedLoops, Statement, Taken, Target, are_placed};
use crate::stretches::index_of;
use bus_ticks::Class;
use image::Labels;
use indexmap::IndexMap;
use std::alloc::{AllocError, Global};
use toml::Table;
use toml_reading::{by_number, document, of_keys, pair, tables_up_to, value_at};

/// The keys of a statement.
pub const STATEMENT_KEYS: &[&str] = &[
    "entry", "leave", "returns", "apart", "loop", "target", "access", "base", "multiply", "branch",
];

/// The most stretches of words apart from loops in a statement.
pub const MOST_STRETCHES: usize = 256;

/// The most loops of a statement.
pub const MOST_LOOPS: usize = 256;

/// The most targets of a statement.
pub const MOST_TARGETS: usize = 1024;

/// The most accesses of a statement.
pub const MOST_ACCESSES: usize = 4096;

/// The most rules for base registers in a statement.
pub const MOST_RULES: usize = 256;

/// The most multiplies of a statement.
pub const MOST_MULTIPLIES: usize = 1024;

/// The most branches of a statement.
pub const MOST_BRANCHES: usize = 1024;

/// The class to leave to.
pub(crate) fn leave_in(table: &Table) -> Read<Class>
    ensures { result ≡ leave_in (table_view table.now) }
{
    value_at(table, "leave").map_or(Ok(Class::Any), leave_named_at)
}

/// What a word does that writes R15 and has no stated target.
pub(crate) fn returns_in(table: &Table) -> Read<Returns>
    ensures { result ≡ returns_in (table_view table.now) }
{
    value_at(table, "returns").map_or(Ok(Returns::Assumed), returns_named_at)
}

// How the handler leaves: the class to leave to, and whether returns are stated.
fn leaving_in(table: &Table) -> Read<(Class, Returns)>
    ensures { result ≡ leaving_in (table_view table.now) }
{
    pair(leave_in(table), returns_in(table))
}

// The entry, and how the handler leaves.
fn ends_in(labels: &Labels, table: &Table) -> Read<(u32, (Class, Returns))>
    ensures { result ≡ ends_in (address_of labels.now) (table_view table.now) }
{
    pair(address_in(labels, table, "entry"), leaving_in(table))
}

type Frame = ((u32, (Class, Returns)), StatedLoops);

type Words = (Vec<(u32, Target)>, Vec<(u32, Class)>);

type Limits = (Vec<(u32, u32)>, Vec<(u32, Taken)>);

type Parts = ((Frame, Words), (Vec<BaseRule>, Limits));

// The entries of two lists by the addresses of their words, or None where one has two for an address.
fn both_by_number<T: Drop, U: Drop>(
    alloc: Global,
    lists: (Vec<(u32, T)>, Vec<(u32, U)>),
) -> Result<Option<(IndexMap<u32, T>, IndexMap<u32, U>)>, AllocError>
    ensures { IfOk result
        (λ made. MatchOption made
        ((are_distinct (keys_of lists.0.items) && are_distinct (keys_of lists.1.items)) ≡ false)
        (λ by. (by.0.entries ≡ lists.0.items) × (by.1.entries ≡ lists.1.items)
        × ((are_distinct (keys_of lists.0.items) && are_distinct (keys_of lists.1.items)) ≡ true))) }
{
    let (first, second) = lists;
    let Some(first) = by_number(alloc, first)? else {
        return Ok(None);
    };
    match by_number(alloc, second)? {
        Some(second) => Ok(Some((first, second))),
        None => Ok(None),
    }
}

// The statement of its parts.
fn stated_once(alloc: Global, parts: Read<Parts>) -> Result<Read<Statement>, AllocError>
    requires { IfOk (reading_map parts_in parts) AreRead }
    ensures { IfOk result (λ reading. reading ≡ and_then (reading_map parts_in parts) stated_once) }
{
    let ((((entry, (leave, returns)), loops), words), (rules, limits)) = match parts {
        Ok(parts) => parts,
        Err(fault) => return Ok(Err(fault)),
    };
    let Some((targets, accesses)) = both_by_number(alloc, words)? else {
        return Ok(Err(StatementFault::Twice));
    };
    let Some(index) = index_of(alloc, &rules)? else {
        return Ok(Err(StatementFault::Twice));
    };
    let Some((multiplies, branches)) = both_by_number(alloc, limits)? else {
        return Ok(Err(StatementFault::Twice));
    };
    Ok(Ok(Statement {
        entry,
        leave,
        returns,
        loops,
        targets,
        accesses,
        rules,
        multiplies,
        branches,
        index,
    }))
}

/// The words that are apart from loops.
///
/// # Errors
///
/// An allocation failed.
pub(crate) fn apart_in(
    alloc: Global,
    labels: &Labels,
    table: &Table,
) -> Result<Read<ApartWords>, AllocError>
    ensures { IfOk result (λ apart. apart ≡ apart_in (address_of labels.now) (table_view table.now)) }
{
    match tables_up_to(alloc, labels, value_at(table, "apart"), MOST_STRETCHES)? {
        Ok(stretches) => Ok(Ok(ApartWords::new(alloc, stretches)?)),
        Err(fault) => Ok(Err(fault)),
    }
}

// The loops with what is apart from them, where their words lie where they may.
fn placed_loops(loops: Read<(Vec<Loop>, ApartWords)>) -> Read<StatedLoops>
    requires { IfOk loops (λ p. AreBounded p.0.items) }
    ensures { result ≡ and_then (reading_map pair_of loops) placed_loops }
{
    let (list, apart) = match loops {
        Ok(loops) => loops,
        Err(fault) => return Err(fault),
    };
    if are_placed(&list, &apart) {
        Ok(StatedLoops { list, apart })
    } else {
        Err(StatementFault::OutOfRange)
    }
}

// The loops, and the words that are apart from them.
fn stated_loops_in(
    alloc: Global,
    labels: &Labels,
    table: &Table,
) -> Result<Read<StatedLoops>, AllocError>
    ensures { IfOk result
        (λ loops. loops ≡ stated_loops_in (address_of labels.now) (table_view table.now)) }
{
    let loops = tables_up_to(alloc, labels, value_at(table, "loop"), MOST_LOOPS)?;
    let apart = apart_in(alloc, labels, table)?;
    Ok(placed_loops(pair(loops, apart)))
}

// The entry, how the handler leaves, and the loops.
fn frame_in(alloc: Global, labels: &Labels, table: &Table) -> Result<Read<Frame>, AllocError>
    ensures { IfOk result (λ frame. frame ≡ frame_in (address_of labels.now) (table_view table.now)) }
{
    let loops = stated_loops_in(alloc, labels, table)?;
    Ok(pair(ends_in(labels, table), loops))
}

// The targets and the accesses.
fn words_in(alloc: Global, labels: &Labels, table: &Table) -> Result<Read<Words>, AllocError>
    ensures { IfOk result
        (λ words. reading_map words_of words ≡ words_in (address_of labels.now) (table_view table.now)) }
{
    let targets = tables_up_to(alloc, labels, value_at(table, "target"), MOST_TARGETS)?;
    let accesses = tables_up_to(alloc, labels, value_at(table, "access"), MOST_ACCESSES)?;
    Ok(pair(targets, accesses))
}

// The multiplies and the branches.
fn limits_in(alloc: Global, labels: &Labels, table: &Table) -> Result<Read<Limits>, AllocError>
    ensures { IfOk result
        (λ limits. reading_map limits_of limits ≡ limits_in (address_of labels.now) (table_view table.now)) }
{
    let multiplies = tables_up_to(alloc, labels, value_at(table, "multiply"), MOST_MULTIPLIES)?;
    let branches = tables_up_to(alloc, labels, value_at(table, "branch"), MOST_BRANCHES)?;
    Ok(pair(multiplies, branches))
}

// The rules for base registers, and those.
fn rules_and_limits(
    alloc: Global,
    labels: &Labels,
    table: &Table,
) -> Result<Read<(Vec<BaseRule>, Limits)>, AllocError>
    ensures { IfOk result
        (λ parts. reading_map rules_of parts
        ≡ rules_and_limits (address_of labels.now) (table_view table.now)) }
{
    let rules = tables_up_to(alloc, labels, value_at(table, "base"), MOST_RULES)?;
    let limits = limits_in(alloc, labels, table)?;
    Ok(pair(rules, limits))
}

// The parts that the table states.
fn parts_of(alloc: Global, labels: &Labels, table: &Table) -> Result<Read<Parts>, AllocError>
    ensures { IfOk result
        (λ parts. reading_map parts_in parts ≡ parts_of (address_of labels.now) (table_view table.now)) }
{
    let frame = frame_in(alloc, labels, table)?;
    let words = words_in(alloc, labels, table)?;
    let rest = rules_and_limits(alloc, labels, table)?;
    Ok(pair(pair(frame, words), rest))
}

// What the table states.
fn statement_of(
    alloc: Global,
    labels: &Labels,
    table: &Table,
) -> Result<Read<Statement>, AllocError>
    ensures { IfOk result (λ reading. reading ≡ statement_of (address_of labels.now) (table_view table.now)) }
{
    let reading = stated_once(alloc, parts_of(alloc, labels, table)?)?;
    Ok(of_keys(STATEMENT_KEYS, table, reading))
}

/// The statement that a text states, with the addresses of the labels that it names.
///
/// # Errors
///
/// Of several faults over the whole text the first is answered, in the order of [`StatementFault`]; `Memory`
/// only where an allocation failed.
pub fn read_statement(
    alloc: Global,
    text: &[u8],
    labels: &Labels,
) -> Result<Statement, StatementFault>
    ensures { result ≢ Err StatementFault.Memory → IsStatement text.now (address_of labels.now) result }
{
    match document(alloc, text)? {
        Some(table) => statement_of(alloc, labels, &table)?,
        None => Err(StatementFault::NotToml),
    }
}
