ghost use Rattle.std.specs.Prelude.{◌≡◌, ◌+◌, ◌<◌, ◌^◌, All, IfOk, length};
ghost use Rattle.numbered_walks.specs.Index.{AreHeaders};
ghost use Rattle.numbered_walks.specs.Ordered.{is_in};
ghost use Rattle.walk_counts.specs.Spans.{EndsBefore};

use numbered_walks::Span;
use std::alloc::{AllocError, Global};

/// Whether the number is that of a member of the instance.
pub fn is_in(span: &Span, number: usize) -> bool
    ensures { result ≡ is_in span.now number }
{
    span.header <= number && number <= span.last
}

/// The span that begins at each number up to that of Exit, if one does.
///
/// # Errors
///
/// An allocation failed.
pub fn headers(alloc: Global, spans: &[Span], exit: usize) -> Result<Vec<Option<Span>>, AllocError>
    requires ended { All (EndsBefore exit) spans.now }
    requires small { exit < 2 ^ 32 }
    ensures { IfOk result
        (λ headers. (length headers.items ≡ exit + 1) × AreHeaders spans.now headers.items) }
{
    let mut headers = vec![in alloc; None; exit + 1]?;
    for span in spans {
        headers[span.header] = Some(*span);
    }
    Ok(headers)
}
