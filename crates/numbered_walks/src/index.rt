ghost use Rattle.std.specs.Prelude.{◌≡◌, ◌+◌, ◌<◌, ◌^◌, IfOk, All, length, Option};
ghost use Rattle.numbered_walks.specs.Ordered.{IsOrdered};
ghost use Rattle.numbered_walks.specs.Index.{IsIndex, AreHeaders};
ghost use Rattle.numbered_walks.specs.Tables.{is_header_in};

use crate::groups::grouped;
use crate::holders::holders;
use crate::span::{NumberedEdge, Span};
use std::alloc::{AllocError, Global};

/// The spans and the edges by number.
#[derive(Drop)]
pub struct Index {
    /// The spans that hold each number, the inner ones first.
    pub holders: Vec<Vec<Span>>,
    /// The edges that lead up to each number, by their places in the list of edges.
    pub entering: Vec<Vec<usize>>,
    /// The back edges to each number.
    pub turning: Vec<Vec<usize>>,
    /// The span that begins at each number.
    pub headers: Vec<Option<Span>>,
}

// The span that begins at each number.
fn headers(alloc: Global, spans: &[Span], size: usize) -> Result<Vec<Option<Span>>, AllocError>
    requires known { All (λ s. s.header < size) spans.now }
    ensures { IfOk result (λ headers. (length headers.items ≡ size) × AreHeaders spans.now headers.items) }
{
    let mut headers = vec![in alloc; None; size]?;
    for span in spans {
        headers[span.header] = Some(*span);
    }
    Ok(headers)
}

/// Whether a span begins at the number.
pub(crate) fn is_header_in(spans: &[Span], headers: &[Option<Span>], number: usize) -> bool
    requires headers { AreHeaders spans.now headers.now }
    requires known { number < length headers.now }
    ensures { result ≡ is_header_in spans.now number }
{
    headers[number].is_some()
}

impl Index {
    /// The index of the numbers up to that of Exit.
    ///
    /// # Errors
    ///
    /// An allocation failed.
    pub fn of(
        alloc: Global,
        edges: &[NumberedEdge],
        spans: &[Span],
        exit: usize,
    ) -> Result<Index, AllocError>
        requires ordered { IsOrdered exit edges.now spans.now }
        requires small { exit < 2 ^ 32 }
        ensures { IfOk result (IsIndex exit edges.now spans.now) }
    {
        let size = exit + 1;
        Ok(Index {
            holders: holders(alloc, spans, size)?,
            entering: grouped(alloc, edges, size, true)?,
            turning: grouped(alloc, edges, size, false)?,
            headers: headers(alloc, spans, size)?,
        })
    }
}
