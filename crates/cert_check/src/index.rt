ghost use Rattle.std.specs.Prelude.{◌≡◌, ◌+◌, ◌<◌, ◌≤◌, ◌^◌, ◌++◌, [], ◌∷◌, All, IfOk, List, length};
ghost use Rattle.numbered_walks.specs.declared.span.Span.{Span};
ghost use Rattle.numbered_walks.specs.Index.{AreHeldTo, AreHolders};
ghost use Rattle.walk_counts.specs.Spans.{EndsBefore};
ghost use Rattle.cert_check.specs.Index.{IsIndex};

use numbered_walks::Span;
use std::alloc::{AllocError, Global};
use walk_counts::headers;

/// Which instances hold each number, and which begins there: the checker's own, built from the tree's spans
/// alone.
#[derive(Drop)]
pub(crate) struct Index {
    /// The spans that hold each number, in their order.
    pub(crate) holders: Vec<Vec<Span>>,
    /// The span that begins at each number.
    pub(crate) headers: Vec<Option<Span>>,
}

// No span at any of so many numbers.
fn no_holders(alloc: Global, size: usize) -> Result<Vec<Vec<Span>>, AllocError>
    ensures { IfOk result (λ held. (length held.items ≡ size) × AreHolders [] held.items) }
{
    let mut held = Vec::with_capacity(alloc, size)?;
    for _ in 0..size {
        held.push(Vec::new(alloc))?;
    }
    Ok(held)
}

// Notes the span at one number.
fn note_at(held: &mut Vec<Vec<Span>>, span: &Span, number: usize) -> Result<(), AllocError>
    requires { number < length held.old.items }
    ensures length { length held.new.items ≡ length held.old.items }
    ensures noted { IfOk result
        (λ _. (seen : List Span) → span.now.header ≤ number → AreHeldTo seen span.now number held.old.items
        → AreHeldTo seen span.now (number + 1) held.new.items) }
{
    held[number].push(*span)?;
    Ok(())
}

// Notes the span at each of its numbers.
fn note(held: &mut Vec<Vec<Span>>, span: &Span) -> Result<(), AllocError>
    requires known { span.now.header ≤ span.now.last }
    requires inside { span.now.last + 1 < length held.old.items }
    ensures length { length held.new.items ≡ length held.old.items }
    ensures noted { IfOk result
        (λ _. (seen : List Span) → AreHolders seen held.old.items
        → AreHolders (seen ++ span.now ∷ []) held.new.items) }
{
    for number in span.header..span.last + 1 {
        note_at(held, span, number)?;
    }
    Ok(())
}

// The spans that hold each number up to that of Exit.
fn holders(alloc: Global, spans: &[Span], exit: usize) -> Result<Vec<Vec<Span>>, AllocError>
    requires ended { All (EndsBefore exit) spans.now }
    requires small { exit < 2 ^ 32 }
    ensures { IfOk result (λ held. (length held.items ≡ exit + 1) × AreHolders spans.now held.items) }
{
    let mut held = no_holders(alloc, exit + 1)?;
    for span in spans {
        note(&mut held, span)?;
    }
    Ok(held)
}

impl Index {
    /// The index of the numbers up to that of Exit, in time linear in the numbers that the spans hold.
    /// `AllocError`: an allocation failed.
    pub(crate) fn of(alloc: Global, spans: &[Span], exit: usize) -> Result<Index, AllocError>
        requires ended { All (EndsBefore exit) spans.now }
        requires small { exit < 2 ^ 32 }
        ensures { IfOk result (IsIndex exit spans.now) }
    {
        Ok(Index {
            holders: holders(alloc, spans, exit)?,
            headers: headers(alloc, spans, exit)?,
        })
    }
}
