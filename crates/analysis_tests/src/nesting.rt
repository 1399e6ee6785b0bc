use crate::handlers::{Handler, graph_of, stated};
use flow_graph::{Graph, Place, Statement};
use loop_bounds::{Instance, Instances, LoopTree, nest};
use numbered_walks::{NumberedEdge, Span};
use samples::{branch, nested_countdown};
use std::alloc::{AllocError, Global};
use std::test::Fail;

fn tree_of_handler(alloc: Global, handler: &Handler) -> Result<LoopTree, Fail> {
    let graph = graph_of(alloc, handler)?;
    let tree = nest(alloc, &graph, &handler.statement);
    drop(graph);
    Ok(tree?)
}

fn tree_of(alloc: Global, source: &[u8], statement: &[u8]) -> Result<LoopTree, Fail> {
    let handler = stated(alloc, source, statement)?;
    let tree = tree_of_handler(alloc, &handler);
    drop(handler);
    tree
}

fn instances_of_graph(
    alloc: Global,
    graph: &Graph,
    statement: &Statement,
) -> Result<Instances, Fail> {
    let tree = nest(alloc, graph, statement)?;
    let instances = tree.nested(alloc, graph);
    drop(tree);
    Ok(instances?)
}

fn instances_of_handler(alloc: Global, handler: &Handler) -> Result<Instances, Fail> {
    let graph = graph_of(alloc, handler)?;
    let instances = instances_of_graph(alloc, &graph, &handler.statement);
    drop(graph);
    instances
}

fn instances_of(alloc: Global, source: &[u8], statement: &[u8]) -> Result<Instances, Fail> {
    let handler = stated(alloc, source, statement)?;
    let instances = instances_of_handler(alloc, &handler);
    drop(handler);
    instances
}

const NO_LOOPS: &[u8] = b"entry = 0x8000";

// Each call has its own instance of the routine's loop.
const CALLED_TWICE: &[u8] = b"
        BL   wait
        BL   wait
        SUBS PC,R14,#4
        DCD  0
wait    SUBS R0,R0,#1
again   BNE  wait
        MOV  PC,R14
";

const CALLED_LOOP: &[u8] = b"entry = 0x8000
loop = [{header = \"wait\", first = \"wait\", last = \"again\", bound = 5}]";

// The routine's place is a member of the loop.
const CALL_IN_A_LOOP: &[u8] = b"
start   BL   routine
        SUBS R0,R0,#1
again   BNE  start
        SUBS PC,R14,#4
routine MOV  PC,R14
";

const LOOP_WITH_A_CALL: &[u8] = b"entry = 0x8000
loop = [{header = \"start\", first = \"start\", last = \"again\", bound = 3}]";

const SIDE_BY_SIDE: &[u8] = b"
        MOV  R1,#2
outer   MOV  R0,#3
one     SUBS R0,R0,#1
again   BNE  one
        MOV  R0,#3
other   SUBS R0,R0,#1
turn    BNE  other
        SUBS R1,R1,#1
last    BNE  outer
        SUBS PC,R14,#4
";

const THREE_LOOPS: &[u8] = b"entry = 0x8000
loop = [
  {header = \"other\", first = \"other\", last = \"turn\", bound = 3},
  {header = \"outer\", first = \"outer\", last = \"last\", bound = 1},
  {header = \"one\", first = \"one\", last = \"again\", bound = 2},
]";

// The way out lies among the addresses of the first loop, has a loop of its own, and is come to from outside.
const WAY_OUT_BETWEEN: &[u8] = b"
        MOVS R0,#3
        BEQ  out
back    SUBS R0,R0,#1
        BNE  last
out     SUBS R1,R1,#1
turn    BNE  out
        SUBS PC,R14,#4
last    B    back
";

const WAY_OUT_APART: &[u8] = b"entry = 0x8000
apart = [[\"out\", \"turn+4\"]]
loop = [
  {header = \"back\", first = \"back\", last = \"last\", bound = 2},
  {header = \"out\", first = \"out\", last = \"turn\", bound = 5},
]";

// Of a span its header, its last place and its bound; of an edge its ends and its cost.
type Three = (usize, usize, u32);

// A source, its statement, and the order and the spans of the tree.
type Ordered = (
    &'static [u8],
    &'static [u8],
    &'static [usize],
    &'static [Three],
);

static ORDERS: [Ordered; 5] = [
    // Both ways meet at the return, and there is one order.
    (branch::SOURCE, NO_LOOPS, &[0, 1, 2, 3, 4], &[]),
    (
        nested_countdown::SOURCE,
        nested_countdown::STATEMENT,
        &[0, 1, 2, 3, 4, 5, 6, 7],
        &[(2, 3, 2), (1, 5, 1)],
    ),
    (
        CALL_IN_A_LOOP,
        LOOP_WITH_A_CALL,
        &[0, 4, 1, 2, 3, 5],
        &[(0, 3, 3)],
    ),
    (
        CALLED_TWICE,
        CALLED_LOOP,
        &[0, 3, 4, 5, 1, 6, 7, 8, 2, 9],
        &[(1, 2, 5), (5, 6, 5)],
    ),
    (
        WAY_OUT_BETWEEN,
        WAY_OUT_APART,
        &[0, 1, 2, 3, 7, 4, 5, 6, 8],
        &[(2, 4, 2), (5, 6, 5)],
    ),
];

static BRANCH_EDGES: [Three; 5] = [(0, 1, 1), (1, 2, 1), (1, 3, 5), (2, 3, 2), (3, 4, 9)];

fn is_span(pair: (&Span, &Three)) -> bool {
    let (span, wanted) = pair;
    (span.header, span.last, span.bound) == *wanted
}

fn is_edge(pair: (&NumberedEdge, &Three)) -> bool {
    let (edge, wanted) = pair;
    (edge.from, edge.to, edge.cost) == *wanted
}

fn has_spans(tree: &LoopTree, wanted: &[Three]) -> bool {
    tree.spans().len() == wanted.len() && tree.spans().iter().zip(wanted.iter()).all(is_span)
}

fn has_edges(tree: &LoopTree, wanted: &[Three]) -> bool {
    tree.edges().len() == wanted.len() && tree.edges().iter().zip(wanted.iter()).all(is_edge)
}

#[test]
fn orders_and_spans(rt: HostRuntime) -> Result<(), Fail> {
    for (source, statement, order, spans) in &ORDERS {
        let tree = tree_of(rt.alloc(), source, statement)?;
        let is_right = tree.order() == *order && has_spans(&tree, spans);
        drop(tree);
        assert!(rt; is_right);
    }
    let tree = tree_of(rt.alloc(), branch::SOURCE, NO_LOOPS)?;
    let has_edges = has_edges(&tree, &BRANCH_EDGES);
    drop(tree);
    assert!(rt; has_edges);
    Ok(())
}

// A loop in a loop and so on: each BNE leads to the MOVNV before that of the one before.
const SIXTEEN: &[u8] = b"
 MOVNV R0,R0
 MOVNV R0,R0
 MOVNV R0,R0
 MOVNV R0,R0
 MOVNV R0,R0
 MOVNV R0,R0
 MOVNV R0,R0
 MOVNV R0,R0
 MOVNV R0,R0
 MOVNV R0,R0
 MOVNV R0,R0
 MOVNV R0,R0
 MOVNV R0,R0
 MOVNV R0,R0
 MOVNV R0,R0
 MOVNV R0,R0
 BNE &803C
 BNE &8038
 BNE &8034
 BNE &8030
 BNE &802C
 BNE &8028
 BNE &8024
 BNE &8020
 BNE &801C
 BNE &8018
 BNE &8014
 BNE &8010
 BNE &800C
 BNE &8008
 BNE &8004
 BNE &8000
 SUBS PC,R14,#4
";

const SIXTEEN_LOOPS: &[u8] = b"entry = 0x8000
loop = [
  {header = 0x803C, first = 0x803C, last = 0x8040, bound = 7},
  {header = 0x8038, first = 0x8038, last = 0x8044, bound = 7},
  {header = 0x8034, first = 0x8034, last = 0x8048, bound = 7},
  {header = 0x8030, first = 0x8030, last = 0x804C, bound = 7},
  {header = 0x802C, first = 0x802C, last = 0x8050, bound = 7},
  {header = 0x8028, first = 0x8028, last = 0x8054, bound = 7},
  {header = 0x8024, first = 0x8024, last = 0x8058, bound = 7},
  {header = 0x8020, first = 0x8020, last = 0x805C, bound = 7},
  {header = 0x801C, first = 0x801C, last = 0x8060, bound = 7},
  {header = 0x8018, first = 0x8018, last = 0x8064, bound = 7},
  {header = 0x8014, first = 0x8014, last = 0x8068, bound = 7},
  {header = 0x8010, first = 0x8010, last = 0x806C, bound = 7},
  {header = 0x800C, first = 0x800C, last = 0x8070, bound = 7},
  {header = 0x8008, first = 0x8008, last = 0x8074, bound = 7},
  {header = 0x8004, first = 0x8004, last = 0x8078, bound = 7},
  {header = 0x8000, first = 0x8000, last = 0x807C, bound = 7},
]
";

#[test]
fn sixteen_deep(rt: HostRuntime) -> Result<(), Fail> {
    let tree = tree_of(rt.alloc(), SIXTEEN, SIXTEEN_LOOPS)?;
    assert!(rt; tree.spans().len() == 16);
    let inner = Span {
        header: 15,
        last: 16,
        bound: 7,
    };
    assert!(rt; tree.spans().first().copied() == Some(inner));
    drop(tree);
    Ok(())
}

// Of each instance: its calls, header and bound, its places with their calls, and how many lie directly
// inside it.
fn put_instances(instances: &[Instance], numbers: &mut Vec<u64>) -> Result<(), AllocError> {
    for instance in instances {
        for call in instance.list().items() {
            numbers.push(u64::from(*call))?;
        }
        let (header, bound) = (instance.header(), instance.bound());
        numbers.extend_from_slice(&[u64::from(header), u64::from(bound)])?;
        for place in instance.places() {
            if let Place::At(calls, address) = place {
                for call in calls.items() {
                    numbers.push(u64::from(*call))?;
                }
                numbers.push(u64::from(*address))?;
            }
        }
        numbers.push(instance.inner().len() as u64)?;
    }
    Ok(())
}

// The outer instances, and then those directly inside them.
fn flat(alloc: Global, instances: &Instances) -> Result<Vec<u64>, AllocError> {
    let mut numbers = Vec::new(alloc);
    put_instances(instances.items(), &mut numbers)?;
    for outer in instances.items() {
        put_instances(outer.inner(), &mut numbers)?;
    }
    Ok(numbers)
}

fn numbers_of(alloc: Global, source: &[u8], statement: &[u8]) -> Result<Vec<u64>, Fail> {
    let instances = instances_of(alloc, source, statement)?;
    let numbers = flat(alloc, &instances);
    drop(instances);
    Ok(numbers?)
}

// A source, its statement, and the numbers of its instances.
static INSTANCES: [(&[u8], &[u8], &[u64]); 4] = [
    (
        nested_countdown::SOURCE,
        nested_countdown::STATEMENT,
        &[
            0x8004, 1, 0x8004, 0x8008, 0x800C, 0x8010, 0x8014, 1, // outside
            0x8008, 2, 0x8008, 0x800C, 0, // inside
        ],
    ),
    (
        SIDE_BY_SIDE,
        THREE_LOOPS,
        &[
            0x8004, 1, 0x8004, 0x8008, 0x800C, 0x8010, 0x8014, 0x8018, 0x801C, 0x8020, 2, 0x8008,
            2, 0x8008, 0x800C, 0, // one inside
            0x8014, 3, 0x8014, 0x8018, 0, // and one beside it
        ],
    ),
    (
        CALLED_TWICE,
        CALLED_LOOP,
        &[
            0x8000, 0x8010, 5, 0x8000, 0x8010, 0x8000, 0x8014, 0, // of the first call
            0x8004, 0x8010, 5, 0x8004, 0x8010, 0x8004, 0x8014, 0, // and of the second
        ],
    ),
    (
        WAY_OUT_BETWEEN,
        WAY_OUT_APART,
        &[
            0x8008, 2, 0x8008, 0x800C, 0x801C, 0, // around the way out
            0x8010, 5, 0x8010, 0x8014, 0, // in it
        ],
    ),
];

#[test]
fn instances(rt: HostRuntime) -> Result<(), Fail> {
    for (source, statement, wanted) in &INSTANCES {
        let numbers = numbers_of(rt.alloc(), source, statement)?;
        assert!(rt; numbers.as_slice() == *wanted);
    }
    Ok(())
}
