ghost use Rattle.std.specs.Prelude.{◌≡◌, ◌+◌, ◌<◌, ◌≤◌, All, length, List, IfOk, [], ◌∷◌, ◌++◌};
ghost use Rattle.numbered_walks.specs.Index.{AreHolders, AreHeldTo};
ghost use Rattle.numbered_walks.specs.declared.span.Span.{Span};

use crate::span::Span;
use std::alloc::{AllocError, Global};

fn empty_holders(alloc: Global, size: usize) -> Result<Vec<Vec<Span>>, AllocError>
    ensures { IfOk result (λ held. (length held.items ≡ size) × AreHolders [] held.items) }
{
    let mut held = Vec::with_capacity(alloc, size)?;
    for _ in 0..size {
        held.push(Vec::new(alloc))?;
    }
    Ok(held)
}

// The span put down at the number.
fn hold_at(held: &mut Vec<Vec<Span>>, span: Span, number: usize) -> Result<(), AllocError>
    requires { number < length held.old.items }
    ensures length { length held.new.items ≡ length held.old.items }
    ensures added { IfOk result
        (λ _. (seen : List Span) → span.header ≤ number → AreHeldTo seen span number held.old.items
        → AreHeldTo seen span (number + 1) held.new.items) }
{
    held[number].push(span)?;
    Ok(())
}

// The span put down at all its numbers.
fn hold(held: &mut Vec<Vec<Span>>, span: Span) -> Result<(), AllocError>
    requires known { span.header ≤ span.last }
    requires inside { span.last + 1 < length held.old.items }
    ensures length { length held.new.items ≡ length held.old.items }
    ensures added { IfOk result
        (λ _. (seen : List Span) → AreHolders seen held.old.items
        → AreHolders (seen ++ span ∷ []) held.new.items) }
{
    for number in span.header..span.last + 1 {
        hold_at(held, span, number)?;
    }
    Ok(())
}

/// The spans that hold each number, in their order.
pub(crate) fn holders(
    alloc: Global,
    spans: &[Span],
    size: usize,
) -> Result<Vec<Vec<Span>>, AllocError>
    requires known { All (λ s. (s.header ≤ s.last) × (s.last + 1 < size)) spans.now }
    ensures { IfOk result (λ held. (length held.items ≡ size) × AreHolders spans.now held.items) }
{
    let mut held = empty_holders(alloc, size)?;
    for span in spans {
        hold(&mut held, *span)?;
    }
    Ok(held)
}
