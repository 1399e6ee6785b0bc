ghost use Rattle.std.specs.Prelude.{◌≡◌, ◌<◌, ◌^◌, ◌↔◌, ℕ, List, Some, length, map, true};
ghost use Rattle.control_flow.specs.Flow.{Flow, IsWellFormed};
ghost use Rattle.loop_bounds.specs.Tree.{IsTree, Tree, place_in};
ghost use Rattle.longest_walk.specs.Folded.{unfolded};
ghost use Rattle.longest_walk.specs.Longest.{IsWalkOf};
ghost use Rattle.longest_walk.specs.declared.folded.Item.{Item};
ghost use Rattle.walk_counts.specs.Counts.{AreCounts};
ghost use Rattle.text_graph.specs.Nodes.{HoldEachOnce, LeadToNodes, all_ticks};
ghost use Rattle.text_graph.specs.Straight.{IsStretch, LeadsOn};
ghost use Rattle.text_graph.specs.Stretches.{is_begin, next_of, stretch_from};

/// States that the nodes of a drawing hold each place of the graph once, and that its edges lead to Exit or
/// to one of the nodes. It does nothing.
pub fn places_are_drawn_once()
    ensures places { (flow : Flow) (tree : Tree) → IsWellFormed flow → IsTree flow tree
        → HoldEachOnce flow tree }
    ensures edges { (flow : Flow) (tree : Tree) → IsWellFormed flow → IsTree flow tree
        → LeadToNodes flow tree }
{}

/// States what the nodes of a drawing are by the graph: a number's stretch goes on with another exactly where
/// the one's place leads on to the other's, and the places of each node are a whole straight stretch. It does
/// nothing.
pub fn nodes_are_stretches_of_the_graph()
    ensures next { (flow : Flow) (tree : Tree) (m n : ℕ) → IsWellFormed flow → IsTree flow tree
        → m < length flow.places → n < length flow.places
        → (next_of flow tree m ≡ Some n) ↔ LeadsOn flow tree (place_in flow tree m) (place_in flow tree n) }
    ensures nodes { (flow : Flow) (tree : Tree) (n : ℕ) → IsWellFormed flow → IsTree flow tree
        → n < length flow.places → is_begin flow tree n ≡ true
        → IsStretch flow tree (map (place_in flow tree) (stretch_from flow tree n)) }
{}

/// States that the ticks of all nodes are what the walk costs, if that is less than 2^64. It does nothing.
pub fn node_ticks_are_the_bound()
    ensures { (flow : Flow) (tree : Tree) (cost : ℕ) (items : List Item) (counts : List ℕ)
        → IsWellFormed flow → IsTree flow tree → IsWalkOf flow tree cost items → cost < 2 ^ 64
        → AreCounts flow.edges (unfolded items) counts → all_ticks flow tree counts ≡ cost }
{}
