//! Which label was perhaps meant by a name in a statement that is none.

ghost use Rattle.std.specs.Prelude.{◌≡◌, ◌≤◌, IfOk, length, map, option_map};
ghost use Rattle.std.specs.List.{prefix_len};
ghost use Rattle.text_refusals.specs.AskedLabels.{AsksOfFirst, IsQuestion, IsStatementReason};
ghost use Rattle.text_refusals.specs.AskedLabels.{first_name, is_in_name};
ghost use Rattle.text_refusals.specs.AskedLabels.{name_at, name_in, question, question_row, unknown_name};
ghost use Rattle.text_refusals.specs.AskedLabels.{whole_text, word_labels};
ghost use Rattle.text_refusals.specs.Courses.{at_front};
ghost use Rattle.text_refusals.specs.FaultyItems.{has_in};
ghost use Rattle.text_refusals.specs.Outline.{item_of, value_of};

use crate::asked::Asked;
use crate::course::Course;
use crate::nearest::{asked_text, looks_like};
use crate::outline::OutlineItem;
use crate::outline_tokens::OutlineValue;
use crate::statements::{statement_items, statement_text};
use image::Labels;
use sources::Source;
use statement::{Document, StatementFault};
use std::alloc::{AllocError, Global};
use std::collections::BTreeMap;
use text_rows::{SourceLine, put};
use toml_reading::document;

// Neither sign of an offset.
fn is_in_name(byte: u8) -> bool
    ensures { result ≡ is_in_name byte }
{
    byte != b'+' && byte != b'-'
}

fn name_len(text: &[u8]) -> usize
    ensures len { result ≡ prefix_len is_in_name text.now }
    ensures within { result ≤ length text.now }
{
    text.iter().take_while(|byte| is_in_name(**byte)).count()
}

// The name in a text that stands for an address.
fn name_in(text: &[u8]) -> &[u8]
    ensures { result.now ≡ name_in text.now }
{
    &text[..name_len(text)]
}

// A text that is whole in its line.
fn whole_text(value: OutlineValue<'_>) -> Option<&[u8]>
    ensures { option_map (λ t. t.now) result ≡ whole_text (value_of value.entry) }
{
    match value {
        OutlineValue::Quoted(_, text) => Some(text),
        OutlineValue::Bare(_)
        | OutlineValue::Cut(_, _)
        | OutlineValue::Array(_)
        | OutlineValue::InlineTable(_) => None,
    }
}

// The name in a text, if it is no label.
fn unknown_name<'a>(labels: &Labels, text: Option<&'a [u8]>) -> Option<&'a [u8]>
    ensures { option_map (λ n. n.now) result
        ≡ unknown_name labels.now (option_map (λ t. t.now) text.entry) }
{
    let text = text?;
    let name = name_in(text);
    if labels.get(name).is_some() {
        return None;
    }
    Some(name)
}

// The name that is no label, of an item that has the fault.
fn name_at<'a>(
    asked: &Asked<'_>,
    labels: &Labels,
    course: &Course,
    item: &OutlineItem<'a>,
) -> Option<&'a [u8]>
    ensures { option_map (λ n. n.now) result
        ≡ name_at labels.now (has_in asked.now) course.now (item_of item.now) }
{
    match item {
        OutlineItem::States(pair) => {
            if asked.is_faulty(course, pair) {
                return unknown_name(labels, whole_text(pair.value));
            }
            None
        }
        OutlineItem::Begins(_) | OutlineItem::Ends => None,
    }
}

// The first of them.
#[tactic(auto, unfolding(crate::specs::AskedLabels::first_name))]
fn first_name<'a>(asked: &Asked<'_>, labels: &Labels, items: &[OutlineItem<'a>]) -> Option<&'a [u8]>
    ensures { option_map (λ n. n.now) result
        ≡ first_name labels.now (has_in asked.now) at_front (map item_of items.now) }
{
    let mut course = Course::new();
    for index in 0..items.len() {
        let name = name_at(asked, labels, &course, &items[index]);
        if name.is_some() {
            return name;
        }
        course = course.after(&items[index]);
    }
    None
}

fn question_row(alloc: Global, name: &[u8], label: Option<&[u8]>) -> Result<Vec<u8>, AllocError>
    ensures { IfOk result
        (λ text. text.items ≡ question_row name.now (option_map (λ l. l.now) label.entry)) }
{
    let Some(label) = label else {
        return Ok(Vec::new(alloc));
    };
    let mut out = Vec::from_slice(alloc, name)?;
    put(&mut out, b" is no label")?;
    let asked = asked_text(alloc, Some(label))?;
    put(&mut out, &asked)?;
    put(&mut out, b"\n")?;
    Ok(out)
}

// Whether the label was meant that the name looks like.
fn question(alloc: Global, labels: &[&[u8]], name: Option<&[u8]>) -> Result<Vec<u8>, AllocError>
    ensures { IfOk result
        (λ text. text.items
        ≡ question (map (λ l. l.now) labels.now) (option_map (λ n. n.now) name.entry)) }
{
    let Some(name) = name else {
        return Ok(Vec::new(alloc));
    };
    let label = looks_like(alloc, labels, name)?;
    question_row(alloc, name, label)
}

// The labels of the words of a source.
fn word_labels<'s>(
    alloc: Global,
    lines: &BTreeMap<u32, SourceLine<'s>>,
) -> Result<Vec<&'s [u8]>, AllocError>
    ensures { IfOk result (λ labels. map (λ l. l.now) labels.items ≡ word_labels lines.now) }
{
    lines.values().map(|line| line.label).collect(alloc)
}

// The question about the first name in a text that is no label.
fn asked_question(
    alloc: Global,
    asked: &Asked<'_>,
    text: &[u8],
    source: &Source<'_>,
) -> Result<Vec<u8>, AllocError>
    ensures { IfOk result (λ out. AsksOfFirst source.now (has_in asked.now) text.now out.items) }
{
    let items = statement_items(alloc, text)?;
    let lines = source.lines(alloc)?;
    let labels = word_labels(alloc, &lines)?;
    question(alloc, &labels, first_name(asked, &source.labels, &items))
}

// The same of a text.
fn unknown_label_question(
    alloc: Global,
    text: &[u8],
    source: &Source<'_>,
) -> Result<Vec<u8>, AllocError>
    ensures { IfOk result
        (λ out. IsQuestion source.now text.now StatementFault.UnknownLabel out.items) }
{
    let Some(table) = document(alloc, text)? else {
        return Ok(Vec::new(alloc));
    };
    let document = Document::new(alloc, &source.labels, &table)?;
    let asked = Asked {
        document: &document,
        fault: StatementFault::UnknownLabel,
    };
    asked_question(alloc, &asked, text, source)
}

// The question whether a label was meant, where one is unknown.
fn label_question(
    alloc: Global,
    text: &[u8],
    source: &Source<'_>,
    fault: StatementFault,
) -> Result<Vec<u8>, AllocError>
    ensures { IfOk result (λ out. IsQuestion source.now text.now fault out.items) }
{
    match fault {
        StatementFault::UnknownLabel => unknown_label_question(alloc, text, source),
        _ => Ok(Vec::new(alloc)),
    }
}

/// What shows why the text of a statement is refused: the lines where its document has the fault, as
/// `statement_text` has them; and of the first name in them that is no label, whether one was meant that it
/// looks like.
///
/// # Errors
///
/// An allocation failed.
pub fn statement_reason(
    alloc: Global,
    text: &[u8],
    source: &Source<'_>,
    fault: StatementFault,
) -> Result<Vec<u8>, AllocError>
    ensures { IfOk result (λ out. IsStatementReason source.now text.now fault out.items) }
{
    let mut out = statement_text(alloc, text, &source.labels, fault)?;
    let question = label_question(alloc, text, source, fault)?;
    put(&mut out, &question)?;
    Ok(out)
}
