//! Drafts on statements that are begun.

ghost use Rattle.std.specs.Prelude.{◌≡◌, ◌++◌, IfOk, OnOk};
ghost use Rattle.std.specs.List.{flat_map};
ghost use Rattle.text_draft.specs.DraftOn.{IsDraftOnText};
ghost use Rattle.text_draft.specs.DraftOnText.{class_line, draft_on_text, entry_table, front_text, if_absent};
ghost use Rattle.text_draft.specs.DraftOnText.{has_notes, if_other, is_nothing, loops_text, named_text};
ghost use Rattle.text_draft.specs.DraftOnText.{note_text, notes_text, other_text};
ghost use Rattle.text_draft.specs.DraftOnText.{as_tables, aside, aside_head, rule_table, some_aside};
ghost use Rattle.text_draft.specs.DraftText.{apart_text, entries_text, rules_text};
ghost use Rattle.text_draft.specs.Lacking.{AreRows, AreTables, lacking_of};
ghost use Rattle.text_draft.specs.declared.forms.ListKey.TheVariants.{Access, Apart, Base, Loop, Target};

use crate::accesses::FoundAccess;
use crate::begun::Begun;
use crate::closing::has_mark;
use crate::drafts::DraftParts;
use crate::forms::{Forms, ListForm, ListKey, RowTexts, put_hashed};
use crate::grounds::Ground;
use crate::pc_writers::any_left;
use crate::rules::FoundRule;
use crate::statement_text::{Sheet, put_full, put_ground, put_register, written};
use bus_ticks::Class;
use sources::Source;
use statement::{ApartStretch, Statement, class_name};
use std::alloc::{AllocError, Global};
use text_rows::put;

/// Tables for the list of loops and that of targets, and what stands between them.
#[derive(Drop)]
pub struct TableTexts {
    pub loops: Vec<u8>,
    pub candidates: Vec<u8>,
    pub targets: Vec<u8>,
}

// The rows of what was found, by the lists into which they go.
fn rows_of(alloc: Global, sheet: &Sheet, found: &DraftParts) -> Result<RowTexts, AllocError>
    ensures { IfOk result (AreRows sheet.now.lines.now (lacking_of found.now)) }
{
    let mut rows = RowTexts {
        apart: Vec::new(alloc),
        rules: Vec::new(alloc),
        entries: Vec::new(alloc),
    };
    sheet.put_each_stretch(&mut rows.apart, &found.loops.apart)?;
    sheet.put_each_rule(&mut rows.rules, &found.rules)?;
    sheet.put_each_entry(&mut rows.entries, &found.entries)?;
    Ok(rows)
}

// Adds the addresses to which a `"?"` may lead, of a stated target or an added one.
fn put_named(
    out: &mut Vec<u8>,
    sheet: &Sheet,
    statement: &Statement,
    found: &DraftParts,
) -> Result<(), AllocError>
    ensures { OnOk result
        (out.new.items
        ≡ out.old.items ++ named_text sheet.now.lines.now statement.now (lacking_of found.now)) }
{
    let open_left = any_left(&Begun::of(statement), &found.targets);
    sheet.put_candidates(out, b"above or below", open_left, &found.candidates)
}

// The tables of what was found.
fn tables_of(
    alloc: Global,
    sheet: &Sheet,
    statement: &Statement,
    found: &DraftParts,
) -> Result<TableTexts, AllocError>
    ensures { IfOk result (AreTables sheet.now.lines.now statement.now (lacking_of found.now)) }
{
    let mut tables = TableTexts {
        loops: Vec::new(alloc),
        candidates: Vec::new(alloc),
        targets: Vec::new(alloc),
    };
    sheet.put_loops(&mut tables.loops, &found.counted)?;
    put_named(&mut tables.candidates, sheet, statement, found)?;
    sheet.put_targets(&mut tables.targets, &found.targets)?;
    Ok(tables)
}

// ## In front of the begun text

fn put_new_apart(
    out: &mut Vec<u8>,
    sheet: &Sheet,
    form: ListForm,
    stretches: &[ApartStretch],
) -> Result<(), AllocError>
    ensures { OnOk result
        (out.new.items
        ≡ out.old.items ++ if_absent form (apart_text sheet.now.lines.now stretches.now)) }
{
    match form {
        ListForm::Absent => sheet.put_apart(out, stretches),
        ListForm::Rows | ListForm::Tables | ListForm::Other => Ok(()),
    }
}

fn put_new_rules(
    out: &mut Vec<u8>,
    sheet: &Sheet,
    form: ListForm,
    rules: &[FoundRule],
) -> Result<(), AllocError>
    ensures { OnOk result
        (out.new.items ≡ out.old.items ++ if_absent form (rules_text sheet.now.lines.now rules.now)) }
{
    match form {
        ListForm::Absent => sheet.put_rules(out, rules),
        ListForm::Rows | ListForm::Tables | ListForm::Other => Ok(()),
    }
}

fn put_new_entries(
    out: &mut Vec<u8>,
    sheet: &Sheet,
    form: ListForm,
    entries: &[FoundAccess],
) -> Result<(), AllocError>
    ensures { OnOk result
        (out.new.items
        ≡ out.old.items ++ if_absent form (entries_text sheet.now.lines.now entries.now)) }
{
    match form {
        ListForm::Absent => sheet.put_entries(out, entries),
        ListForm::Rows | ListForm::Tables | ListForm::Other => Ok(()),
    }
}

// Adds the lists that the statement does not have.
fn put_front(
    out: &mut Vec<u8>,
    sheet: &Sheet,
    forms: Forms,
    found: &DraftParts,
) -> Result<(), AllocError>
    ensures { OnOk result
        (out.new.items ≡ out.old.items ++ front_text sheet.now.lines.now forms (lacking_of found.now)) }
{
    put_new_apart(out, sheet, forms.apart, &found.loops.apart)?;
    put_new_rules(out, sheet, forms.base, &found.rules)?;
    put_new_entries(out, sheet, forms.access, &found.entries)
}

// ## Behind it

// Whether nothing has to be stated.
fn is_nothing(found: &DraftParts) -> bool
    ensures { result ≡ is_nothing (lacking_of found.now) }
{
    found.loops.apart.is_empty()
        && found.rules.is_empty()
        && found.entries.is_empty()
        && found.counted.is_empty()
        && found.targets.is_empty()
}

// Whether a note on an address follows, or that more is reached.
fn has_notes(found: &DraftParts) -> bool
    ensures { result ≡ has_notes (lacking_of found.now) }
{
    found.full || !found.ends.is_empty() || !found.loops.cycles.is_empty()
}

fn note_text(begun: &[u8], found: &DraftParts) -> &'static [u8]
    ensures { result.now ≡ note_text begun.now (lacking_of found.now) }
{
    if !is_nothing(found) {
        return b"\n# Added by draft, beside rows in apart, base and access:\n";
    }
    if has_mark(begun) {
        return b"\n# Draft adds nothing; each \"?\" above is still to be filled in.\n";
    }
    if has_notes(found) {
        return b"\n";
    }
    b"\n# Draft adds nothing: all that it asks for is stated.\n"
}

// Adds what the reader has to know of the addresses.
fn put_notes(
    out: &mut Vec<u8>,
    sheet: &Sheet,
    begun: &[u8],
    found: &DraftParts,
) -> Result<(), AllocError>
    ensures { OnOk result
        (out.new.items
        ≡ out.old.items ++ notes_text sheet.now.lines.now begun.now (lacking_of found.now)) }
{
    put(out, note_text(begun, found))?;
    put_full(out, found.full)?;
    sheet.put_ends(out, &found.ends)?;
    sheet.put_cycles(out, &found.loops.cycles)
}

// Adds the class of a table.
fn put_class_line(out: &mut Vec<u8>, class: Class, basis: Ground) -> Result<(), AllocError>
    ensures { OnOk result (out.new.items ≡ out.old.items ++ class_line class basis) }
{
    put(out, b"class = \"")?;
    put(out, class_name(written(class, basis)).as_bytes())?;
    put(out, b"\"")?;
    put_ground(out, class, basis)?;
    put(out, b"\n")
}

fn put_rule_table(out: &mut Vec<u8>, rule: &FoundRule) -> Result<(), AllocError>
    ensures { OnOk result (out.new.items ≡ out.old.items ++ rule_table rule.now) }
{
    put(out, b"\n[[base]]\nregister = \"")?;
    put_register(out, rule.register)?;
    put(out, b"\"\n")?;
    put_class_line(out, rule.class, rule.basis)
}

fn put_rule_tables(out: &mut Vec<u8>, rules: &[FoundRule]) -> Result<(), AllocError>
    ensures { OnOk result (out.new.items ≡ out.old.items ++ flat_map rule_table rules.now) }
{
    for rule in rules {
        put_rule_table(out, rule)?;
    }
    Ok(())
}

fn put_entry_table(out: &mut Vec<u8>, sheet: &Sheet, entry: &FoundAccess) -> Result<(), AllocError>
    ensures { OnOk result
        (out.new.items ≡ out.old.items ++ entry_table sheet.now.lines.now entry.now) }
{
    put(out, b"\n[[access]]\n")?;
    sheet.put_place(out, 0, b"at", entry.at)?;
    put_class_line(out, entry.class, entry.basis)
}

fn put_entry_tables(
    out: &mut Vec<u8>,
    sheet: &Sheet,
    entries: &[FoundAccess],
) -> Result<(), AllocError>
    ensures { OnOk result
        (out.new.items ≡ out.old.items ++ flat_map (entry_table sheet.now.lines.now) entries.now) }
{
    for entry in entries {
        put_entry_table(out, sheet, entry)?;
    }
    Ok(())
}

// What stands in front of rows, or of tables, that are comments.
fn aside_head(key: ListKey) -> &'static [u8]
    ensures { result.now ≡ aside_head key }
{
    match key {
        ListKey::Loop | ListKey::Target => b"\n# These tables belong into the list ",
        ListKey::Apart | ListKey::Base | ListKey::Access => b"\n# These rows belong into the list ",
    }
}

fn put_some_aside(out: &mut Vec<u8>, key: ListKey, rows: &[u8]) -> Result<(), AllocError>
    ensures { OnOk result (out.new.items ≡ out.old.items ++ some_aside key rows.now) }
{
    put(out, aside_head(key))?;
    put(out, key.name())?;
    put(out, b" above:\n#")?;
    put_hashed(out, rows)
}

// Adds rows or tables as comments, if there are any.
fn put_aside(out: &mut Vec<u8>, key: ListKey, rows: &[u8]) -> Result<(), AllocError>
    ensures { OnOk result (out.new.items ≡ out.old.items ++ aside key rows.now) }
{
    if rows.is_empty() {
        return Ok(());
    }
    put_some_aside(out, key, rows)
}

fn put_other_apart(out: &mut Vec<u8>, form: ListForm, rows: &[u8]) -> Result<(), AllocError>
    ensures { OnOk result
        (out.new.items
        ≡ out.old.items ++ if_other form (aside Apart rows.now) (aside Apart rows.now)) }
{
    match form {
        ListForm::Tables | ListForm::Other => put_aside(out, ListKey::Apart, rows),
        ListForm::Rows | ListForm::Absent => Ok(()),
    }
}

fn put_other_rules(
    out: &mut Vec<u8>,
    form: ListForm,
    rules: &[FoundRule],
    rows: &[u8],
) -> Result<(), AllocError>
    ensures { OnOk result
        (out.new.items
        ≡ out.old.items
        ++ if_other form (flat_map rule_table rules.now) (aside Base rows.now)) }
{
    match form {
        ListForm::Tables => put_rule_tables(out, rules),
        ListForm::Other => put_aside(out, ListKey::Base, rows),
        ListForm::Rows | ListForm::Absent => Ok(()),
    }
}

fn put_other_entries(
    out: &mut Vec<u8>,
    sheet: &Sheet,
    form: ListForm,
    entries: &[FoundAccess],
    rows: &[u8],
) -> Result<(), AllocError>
    ensures { OnOk result
        (out.new.items
        ≡ out.old.items
        ++ if_other form (flat_map (entry_table sheet.now.lines.now) entries.now)
        (aside Access rows.now)) }
{
    match form {
        ListForm::Tables => put_entry_tables(out, sheet, entries),
        ListForm::Other => put_aside(out, ListKey::Access, rows),
        ListForm::Rows | ListForm::Absent => Ok(()),
    }
}

// Adds what belongs to lists that the statement has in another form than rows.
fn put_other(
    out: &mut Vec<u8>,
    sheet: &Sheet,
    forms: Forms,
    found: &DraftParts,
    rows: &RowTexts,
) -> Result<(), AllocError>
    requires { AreRows sheet.now.lines.now (lacking_of found.now) rows.now }
    ensures { OnOk result
        (out.new.items ≡ out.old.items ++ other_text sheet.now.lines.now forms (lacking_of found.now)) }
{
    put_other_apart(out, forms.apart, &rows.apart)?;
    put_other_rules(out, forms.base, &found.rules, &rows.rules)?;
    put_other_entries(out, sheet, forms.access, &found.entries, &rows.entries)
}

// Adds tables, as comments where the statement has their list in another form.
fn put_as_tables(
    out: &mut Vec<u8>,
    key: ListKey,
    form: ListForm,
    tables: &[u8],
) -> Result<(), AllocError>
    ensures { OnOk result (out.new.items ≡ out.old.items ++ as_tables key form tables.now) }
{
    match form {
        ListForm::Tables | ListForm::Absent => put(out, tables),
        ListForm::Rows | ListForm::Other => put_aside(out, key, tables),
    }
}

// Adds the loops and the targets.
fn put_tables(out: &mut Vec<u8>, forms: Forms, tables: &TableTexts) -> Result<(), AllocError>
    ensures { OnOk result
        (out.new.items
        ≡ out.old.items
        ++ (as_tables Loop forms.loops tables.now.loops.items
        ++ (tables.now.candidates.items ++ as_tables Target forms.targets tables.now.targets.items))) }
{
    put_as_tables(out, ListKey::Loop, forms.loops, &tables.loops)?;
    put(out, &tables.candidates)?;
    put_as_tables(out, ListKey::Target, forms.targets, &tables.targets)
}

// ## The whole

// The text of what was found.
fn text_on(
    alloc: Global,
    sheet: &Sheet,
    begun: &[u8],
    statement: &Statement,
    found: &DraftParts,
) -> Result<Vec<u8>, AllocError>
    ensures { IfOk result
        (λ text. text.items
        ≡ draft_on_text sheet.now.lines.now begun.now statement.now (lacking_of found.now)) }
{
    let rows = rows_of(alloc, sheet, found)?;
    let tables = tables_of(alloc, sheet, statement, found)?;
    let forms = Forms::of(begun, statement);
    let mut out = Vec::new(alloc);
    put_front(&mut out, sheet, forms, found)?;
    rows.put_filled(&mut out, begun)?;
    put_notes(&mut out, sheet, begun, found)?;
    put_other(&mut out, sheet, forms, found, &rows)?;
    put_tables(&mut out, forms, &tables)?;
    Ok(out)
}

/// A statement that is begun, with what was [found](crate::find_lacking) that it lacks and is
/// [claimed](DraftParts::claim) to be proved: the text as it is, and rows in its lists of words apart, rules
/// and classes, loops, and the targets of words that write R15. `statement` is what the text says once it is
/// [`closed`](crate::closed): a destination 0 stands for what is left open.
///
/// What is written is as in [`draft`](crate::draft). Where rows go is part of the text: behind the line that
/// begins their list, in front of all where the statement has no such list, else as tables or comments behind
/// it. That the text can be read as a statement is tested only.
///
/// # Errors
///
/// An allocation failed.
pub fn draft_on(
    alloc: Global,
    source: &Source<'_>,
    begun: &[u8],
    statement: &Statement,
    found: &DraftParts,
) -> Result<Vec<u8>, AllocError>
    ensures { IfOk result
        (λ text. IsDraftOnText source.now begun.now statement.now found.now text.items) }
{
    let lines = source.lines(alloc)?;
    text_on(alloc, &Sheet { lines: &lines }, begun, statement, found)
}
