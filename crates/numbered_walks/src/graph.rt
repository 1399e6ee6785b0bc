use crate::index::Index;
use crate::span::{NumberedEdge, Span};

/// Edges and spans over the numbers of places, and where they are found by number.
#[derive(Clone, Copy)]
pub struct NumberedGraph<'a> {
    /// The edges.
    pub edges: &'a [NumberedEdge],
    /// The spans of the instances, the inner ones first.
    pub spans: &'a [Span],
    /// The number of Exit, the greatest.
    pub exit: usize,
    /// The edges and the spans of each number.
    pub index: &'a Index,
}
