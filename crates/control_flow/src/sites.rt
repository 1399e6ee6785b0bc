use crate::actions::Action;
use crate::call_list::Calls;
use crate::graph_inputs::GraphInputs;

/// A word of the image at a place, and what it does.
#[derive(Clone, Copy)]
pub(crate) struct Site<'a> {
    pub(crate) inputs: GraphInputs<'a>,
    pub(crate) calls: Calls,
    /// The word's address, in bytes.
    pub(crate) address: u32,
    pub(crate) action: Action,
}
