use crate::index::Index;
use control_flow::Graph;
use loop_bounds::LoopTree;

/// A handler's flow graph, the tree of its loops, and the checker's index of the tree.
#[derive(Clone, Copy)]
pub(crate) struct IndexedTree<'a> {
    pub(crate) graph: &'a Graph,
    pub(crate) tree: &'a LoopTree,
    pub(crate) index: &'a Index,
}
