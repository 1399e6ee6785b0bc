use crate::handlers::{graph_of, stated};
use flow_graph::{Edge, Graph, Label, Place};
use samples::{branch, call_twice, lone_return};
use std::alloc::Global;
use std::test::Fail;

fn built(alloc: Global, source: &[u8], statement: &[u8]) -> Result<Graph, Fail> {
    let handler = stated(alloc, source, statement)?;
    let graph = graph_of(alloc, &handler);
    drop(handler);
    graph
}

// The cost of an edge, how many calls led to its end, and the end's address; for Exit 0 and 0.
type End = (u32, usize, u32);

fn shown(edge: &Edge) -> End {
    match edge.to {
        Place::At(calls, address) => (edge.cost, calls.items().len(), address),
        Place::Exit => (edge.cost, 0, 0),
    }
}

fn are_edges(graph: &Graph, wanted: &[End]) -> bool {
    graph.edges().len() == wanted.len()
        && graph
            .edges()
            .iter()
            .zip(wanted.iter())
            .all(|(edge, wanted)| shown(edge) == *wanted)
}

const PLAIN: &[u8] = b"entry = 0x8000";

const CALLED_ONCE: &[u8] = b"
        MOV  R4,R14
        BL   routine
        SUBS PC,R4,#4
        DCD  0
routine MOV  PC,R14
";

const TABLE: &[u8] = b"
jump    ADD  PC,PC,R0,LSL #2
        DCD  0
one     MUL  R2,R3,R4
other   SUBS PC,R14,#4
";

const UP: &[u8] = b"entry = 0x8000
target = [{at = \"jump\", kind = \"jump\", to = [\"one\", \"other\"]}]";

const DOWN: &[u8] = b"entry = 0x8000
target = [{at = \"jump\", kind = \"jump\", to = [\"other\", \"one\"]}]";

// A source, a statement, and the edges place by place. The destinations of a jump are in the statement's
// order.
static ROWS: [(&[u8], &[u8], &[End]); 5] = [
    (
        call_twice::SOURCE,
        PLAIN,
        &[
            (1, 0, 0x8004),
            (4, 1, 0x8014),
            (5, 1, 0x8014),
            (9, 0, 0),
            (4, 0, 0x8008),
            (5, 0, 0x800C),
        ],
    ),
    (
        CALLED_ONCE,
        PLAIN,
        &[(1, 0, 0x8004), (4, 1, 0x8010), (10, 0, 0), (4, 0, 0x8008)],
    ),
    (
        branch::SOURCE,
        PLAIN,
        &[
            (1, 0, 0x8004),
            (1, 0, 0x8008),
            (5, 0, 0x800C),
            (2, 0, 0x800C),
            (9, 0, 0),
        ],
    ),
    (
        TABLE,
        UP,
        &[(4, 0, 0x8008), (5, 0, 0x800C), (18, 0, 0x800C), (9, 0, 0)],
    ),
    (
        TABLE,
        DOWN,
        &[(5, 0, 0x800C), (4, 0, 0x8008), (18, 0, 0x800C), (9, 0, 0)],
    ),
];

#[test]
fn edges_place_by_place(rt: HostRuntime) -> Result<(), Fail> {
    for (source, statement, wanted) in &ROWS {
        let graph = built(rt.alloc(), source, statement)?;
        let is_right = are_edges(&graph, wanted);
        drop(graph);
        assert!(rt; is_right);
    }
    let graph = built(rt.alloc(), branch::SOURCE, PLAIN)?;
    assert!(rt; graph.firsts() == [0, 1, 3, 4, 5].as_slice());
    drop(graph);
    Ok(())
}

// Whether the graph is one return, of that cost.
fn is_return(graph: &Graph, cost: u32) -> bool {
    let leaves = match graph.edges() {
        [edge] => edge.to == Place::Exit && edge.label == Label::Do && edge.cost == cost,
        _ => false,
    };
    leaves && graph.places() == [graph.entry()].as_slice() && graph.firsts() == [0, 1].as_slice()
}

#[test]
fn builds_a_return(rt: HostRuntime) -> Result<(), Fail> {
    for (statement, cost) in [
        (b"entry = 0x1C".as_slice(), 9),
        (b"entry = 0x1C\nleave = \"ram\"", 5),
    ] {
        let graph = built(rt.alloc(), lone_return::SOURCE, statement)?;
        let is_right = is_return(&graph, cost);
        drop(graph);
        assert!(rt; is_right);
    }
    Ok(())
}
