//! Texts on their way to an output, piece by piece.

ghost use Rattle.std.specs.List.{flat_map};
ghost use Rattle.outputs.specs.OnTheWay.{Adds};

use outputs::{Output, Page};

/// Puts pieces on their way, one after the other.
pub(crate) fn put_pieces<O: Output>(out: &mut O, page: &mut Page, pieces: &[&[u8]])
    ensures { Adds O.taken O.failures out.old page.old out.new page.new
        (flat_map (λ piece. piece.now) pieces.now) }
{
    for piece in pieces {
        page.put(out, piece);
    }
}
