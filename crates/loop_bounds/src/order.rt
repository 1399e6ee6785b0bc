ghost use Rattle.std.specs.Prelude.{◌≡◌, ◌+◌, ◌-◌, ◌<◌, OnOk, IfOk, IfErr, length, slice_index};
ghost use Rattle.loop_bounds.specs.Edges.{IsGrouped, exit_of};
ghost use Rattle.loop_bounds.specs.Order.{IsOrder, IsOrderFault};
ghost use Rattle.loop_bounds.specs.Search.{IsBegun, IsSearching, IsSearched, IsAtHand, IsStep, colour_at};

use crate::fault::NestFault;
use numbered_walks::NumberedEdge;
use std::alloc::Global;

// How far the search is at a node.
#[derive(Clone, Copy, PartialEq, Eq)]
enum Colour {
    /// Not met.
    White,
    /// On the path.
    Grey,
    /// In the order.
    Black,
}

// A depth-first search. Its stack is a list of its own, since straight code makes paths of any length.
#[derive(Drop)]
struct Search {
    colours: Vec<Colour>,
    // the edge of each node that comes next
    next: Vec<usize>,
    // the grey nodes, from the first to the one at hand
    path: Vec<usize>,
    // the black nodes, each after all to which it has an edge
    order: Vec<usize>,
}

impl Search {
    // The exit is in the order, since no edge leaves it, and no other node is met.
    fn new(alloc: Global, firsts: &[usize]) -> Result<Search, NestFault>
        requires { 0 < length firsts.now }
        ensures begun { IfOk result (IsBegun firsts.now) }
        ensures fault { IfErr result (λ fault. fault ≡ NestFault.Memory) }
    {
        let exit = firsts.len() - 1;
        let mut colours = vec![in alloc; Colour::White; firsts.len()]?;
        colours[exit] = Colour::Black;
        let next = Vec::from_slice(alloc, firsts)?;
        let mut order = Vec::new(alloc);
        order.push(exit)?;
        Ok(Search {
            colours,
            next,
            path: Vec::new(alloc),
            order,
        })
    }

    // The last node of the path, which is at hand, and the edge that it follows next.
    fn at_hand(&self) -> (usize, usize)
        requires some { 0 < length self.now.path.items }
        requires inside { slice_index self.now.path.items (length self.now.path.items - 1)
            < length self.now.next.items }
        ensures { IsAtHand self.now.path.items self.now.next.items
            (length self.now.path.items - 1) result.0 result.1 }
    {
        let node = self.path[self.path.len() - 1];
        (node, self.next[node])
    }

    // Follows the next edge of the node at hand, or puts the node into the order after its last one.
    fn step(&mut self, firsts: &[usize], edges: &[NumberedEdge]) -> Result<(), NestFault>
        requires grouped { IsGrouped firsts.now edges.now }
        requires searching { IsSearching firsts.now edges.now self.old }
        requires some { 0 < length self.old.path.items }
        ensures searching { OnOk result (IsSearching firsts.now edges.now self.new) }
        ensures step { OnOk result (IsStep self.old self.new) }
        ensures fault { IfErr result (IsOrderFault edges.now) }
    {
        let (node, k) = self.at_hand();
        if k == firsts[node + 1] {
            self.colours[node] = Colour::Black;
            self.order.push(node)?;
            self.path.truncate(self.path.len() - 1);
            return Ok(());
        }
        self.next[node] = k + 1;
        let to = edges[k].to;
        match self.colours[to] {
            Colour::Black => Ok(()),
            Colour::Grey => Err(NestFault::UnboundedCycle),
            Colour::White => {
                self.colours[to] = Colour::Grey;
                self.path.push(to)?;
                Ok(())
            }
        }
    }

    // Puts the node and all to which it leads into the order.
    fn visit(
        &mut self,
        firsts: &[usize],
        edges: &[NumberedEdge],
        node: usize,
    ) -> Result<(), NestFault>
        requires grouped { IsGrouped firsts.now edges.now }
        requires searched { IsSearched firsts.now edges.now self.old node }
        requires inside { node < exit_of firsts.now }
        requires white { colour_at self.old.colours.items node ≡ Colour.White }
        ensures searched { OnOk result (IsSearched firsts.now edges.now self.new (node + 1)) }
        ensures fault { IfErr result (IsOrderFault edges.now) }
    {
        self.colours[node] = Colour::Grey;
        self.path.push(node)?;
        while !self.path.is_empty() {
            self.step(firsts, edges)?;
        }
        Ok(())
    }
}

/// All nodes, each after those to which it has an edge.
pub(crate) fn find_order(
    alloc: Global,
    firsts: &[usize],
    edges: &[NumberedEdge],
) -> Result<Vec<usize>, NestFault>
    requires { IsGrouped firsts.now edges.now }
    ensures order { IfOk result (λ order. IsOrder (length firsts.now) edges.now order.items) }
    ensures fault { IfErr result (IsOrderFault edges.now) }
{
    let mut search = Search::new(alloc, firsts)?;
    for node in 0..firsts.len() - 1 {
        if search.colours[node] == Colour::White {
            search.visit(firsts, edges, node)?;
        }
    }
    Ok(search.order)
}
