use crate::tree::LoopTree;
use control_flow::Graph;
use image::Image;
use statement::Statement;

/// A handler: the image that its words are in, what is stated of it, its flow graph and the tree of its loops.
#[derive(Drop)]
pub struct Handler<'a> {
    pub image: &'a Image,
    pub statement: Statement,
    pub graph: Graph,
    pub tree: LoopTree,
}
