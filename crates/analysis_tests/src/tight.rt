use crate::handlers::{Handler, stated};
use bus_ticks::Profile;
use flow_graph::{BuildFault, Tight, TightFault, build, tight_state};
use std::alloc::Global;
use std::test::Fail;

// Whether the one step of an edge's machine takes so many ticks; 0 where the edge is not free.
fn has_ticks(tight: Result<Tight, TightFault>, wanted: Option<u32>) -> bool {
    match tight {
        Ok(mut tight) => {
            let ticks = tight.machine.step(tight.input).ticks;
            drop(tight);
            wanted == Some(ticks)
        }
        Err(fault) => fault == TightFault::NotFree && wanted == Some(0),
    }
}

// Whether the edges have these ticks, in the graph's order.
fn have_ticks(alloc: Global, handler: &Handler, wanted: &[u32]) -> Result<bool, BuildFault> {
    let (image, statement) = (&handler.image, &handler.statement);
    let graph = build(alloc, image, statement, &Profile::one())?;
    let mut is_right = graph.edges().len() == wanted.len();
    for edge in 0..graph.edges().len() {
        let tight = tight_state(alloc, image, statement, &graph, edge);
        if !has_ticks(tight, wanted.get(edge).copied()) {
            is_right = false;
        }
    }
    drop(graph);
    Ok(is_right)
}

// A source, a statement, and the ticks of the edges: a countdown that leaves to any address; a load of R15
// from ROM that leaves to RAM, 1 + 4 + 1 + 4 ticks; and a load whose offset is in a register.
static ROWS: [(&[u8], &[u8], &[u32]); 3] = [
    (
        b" ORG &8000\n MOV R0,#3\nL SUBS R0,R0,#1\n BNE L\n MOV PC,R14",
        b"entry = 0x8000\n[[loop]]\nheader = 0x8004\nfirst = 0x8004\nlast = 0x8008\nbound = 3",
        &[1, 1, 2, 5, 9],
    ),
    (
        b" ORG &8000\n LDR PC,[R0]",
        b"entry = 0x8000\nleave = \"ram\"\n[[access]]\nat = 0x8000\nclass = \"rom\"",
        &[10],
    ),
    (
        b" ORG &8000\n LDR R0,[PC,R1,LSR #31]\n MOV PC,R14",
        b"entry = 0x8000",
        &[0, 9],
    ),
];

#[test]
fn free_edges_cost_their_price(rt: HostRuntime) -> Result<(), Fail> {
    for (source, statement, wanted) in &ROWS {
        let handler = stated(rt.alloc(), source, statement)?;
        let is_right = have_ticks(rt.alloc(), &handler, wanted);
        drop(handler);
        assert!(rt; is_right == Ok(true));
    }
    Ok(())
}
