//! Loops that no run leaves within their bounds.

ghost use Rattle.control_flow.specs.Graph.{IsFlowGraph};
ghost use Rattle.loop_bounds.specs.Handler.{HasItsTree};

use crate::handlers::{self, stated};
use arm2_decode::Register;
use bus_ticks::Profile;
use flow_graph::{Statement, build};
use known_places::{endless_loops, proposed};
use known_words::Given;
use loader::Image;
use loop_bounds::{Handler, LoopInstance, nest};
use std::alloc::{AllocError, Global};
use std::test::Fail;

fn endless_of(
    alloc: Global,
    handler: &Handler<'_>,
    given: &[Given],
) -> Result<Option<Vec<bool>>, AllocError>
    requires graph { IsFlowGraph handler.now.image.now handler.now.statement handler.now.graph.profile
        handler.now.graph }
    requires tree { HasItsTree handler.now }
{
    let table = proposed(alloc, handler, given)?;
    endless_loops(alloc, handler, given, &table)
}

// The addresses of the headers of those that are.
fn headers(
    alloc: Global,
    instances: &[LoopInstance],
    endless: &[bool],
) -> Result<Vec<u32>, AllocError> {
    let mut found = Vec::new(alloc);
    for (instance, is_endless) in instances.iter().zip(endless.iter()) {
        if *is_endless {
            found.push(instance.stated.header)?;
        }
    }
    Ok(found)
}

fn endless_in(
    alloc: Global,
    image: &Image,
    statement: Statement,
    given: &[Given],
) -> Result<Vec<u32>, Fail> {
    let graph = build(alloc, image, &statement, &Profile::one())?;
    let tree = nest(alloc, &graph, &statement)?;
    let handler = Handler {
        image,
        statement,
        graph,
        tree,
    };
    match endless_of(alloc, &handler, given)? {
        Some(endless) => Ok(headers(alloc, handler.tree.instances(), &endless)?),
        None => Ok(Vec::new(alloc)),
    }
}

// Of each instance that no run leaves the address of its header, the inner ones first.
fn endless(
    alloc: Global,
    source: &[u8],
    statement: &[u8],
    given: &[Given],
) -> Result<Vec<u32>, Fail> {
    let handlers::Handler { image, statement } = stated(alloc, source, statement)?;
    endless_in(alloc, &image, statement, given)
}

// Three turns down to 0, of which the last is left: two back.
const DOWN: &[u8] = b"
        MOV   R0,#3
again   SUBS  R0,R0,#1
turn    BNE   again
        SUBS  PC,R14,#4
";

const DOWN_0: &[u8] = b"entry = 0x8000
loop = [{header = \"again\", first = \"again\", last = \"turn\", bound = 0}]";

const DOWN_1: &[u8] = b"entry = 0x8000
loop = [{header = \"again\", first = \"again\", last = \"turn\", bound = 1}]";

const DOWN_2: &[u8] = b"entry = 0x8000
loop = [{header = \"again\", first = \"again\", last = \"turn\", bound = 2}]";

const DOWN_3: &[u8] = b"entry = 0x8000
loop = [{header = \"again\", first = \"again\", last = \"turn\", bound = 3}]";

// The same by a register from 3 to 5 at the entry: two turns back to four.
const DOWN_FROM_GIVEN: &[u8] = b"
        MOV   R1,R1
again   SUBS  R0,R0,#1
turn    BNE   again
        SUBS  PC,R14,#4
";

const FROM_3: &[Given] = &[Given {
    register: Register::R0,
    low: 3,
    high: 5,
}];

// Up to 4, and out at the head: four turns back.
const UP: &[u8] = b"
        MOV   R0,#0
again   CMP   R0,#4
        BEQ   out
        ADD   R0,R0,#1
turn    B     again
out     SUBS  PC,R14,#4
";

// The same where a signed condition closes the way, of which nothing is seen.
const UP_SIGNED: &[u8] = b"
        MOV   R0,#0
again   CMP   R0,#4
        BGE   out
        ADD   R0,R0,#1
turn    B     again
out     SUBS  PC,R14,#4
";

// Another way out by a word of memory.
const BY_MEMORY: &[u8] = b"
        MOV   R0,#3
again   LDR   R1,[R2]
        TST   R1,#1
        BNE   out
        SUBS  R0,R0,#1
turn    BNE   again
out     SUBS  PC,R14,#4
";

// By a masked count, which may be 0 at once.
const MASKED: &[u8] = b"
        AND   R0,R0,#3
again   SUBS  R0,R0,#1
turn    BPL   again
        SUBS  PC,R14,#4
";

// It has no way out, but the handler has one before it.
const STAYS: &[u8] = b"
        LDR   R0,[R1]
        TST   R0,#1
        BNE   out
again   STR   R0,[R1]
turn    B     again
out     SUBS  PC,R14,#4
";

// The outer loop turns back twice, and the inner one each time three times.
const NESTED: &[u8] = b"
        MOV   R1,#3
outer   MOV   R0,#4
again   SUBS  R0,R0,#1
turn    BNE   again
        SUBS  R1,R1,#1
back    BNE   outer
        SUBS  PC,R14,#4
";

const NESTED_2_3: &[u8] = b"entry = 0x8000
loop = [{header = \"again\", first = \"again\", last = \"turn\", bound = 3},
    {header = \"outer\", first = \"outer\", last = \"back\", bound = 2}]";

const NESTED_2_2: &[u8] = b"entry = 0x8000
loop = [{header = \"again\", first = \"again\", last = \"turn\", bound = 2},
    {header = \"outer\", first = \"outer\", last = \"back\", bound = 2}]";

const NESTED_1_3: &[u8] = b"entry = 0x8000
loop = [{header = \"again\", first = \"again\", last = \"turn\", bound = 3},
    {header = \"outer\", first = \"outer\", last = \"back\", bound = 1}]";

const NESTED_1_2: &[u8] = b"entry = 0x8000
loop = [{header = \"again\", first = \"again\", last = \"turn\", bound = 2},
    {header = \"outer\", first = \"outer\", last = \"back\", bound = 1}]";

// The inner loop has a way out of both by a word of memory.
const OUT_OF_BOTH: &[u8] = b"
        MOV   R1,#3
outer   MOV   R0,#4
again   LDR   R2,[R3]
        TST   R2,#1
        BNE   out
        SUBS  R0,R0,#1
turn    BNE   again
        SUBS  R1,R1,#1
back    BNE   outer
out     SUBS  PC,R14,#4
";

// A loop in a routine that is called with 3 and with 5: two turns back, and four.
const CALLED_TWICE: &[u8] = b"
        MOV   R0,#3
        BL    part
        MOV   R0,#5
        BL    part
        SUBS  PC,R8,#4
part    MOV   R1,R1
again   SUBS  R0,R0,#1
turn    BNE   again
        MOV   PC,R14
";

// It calls a routine, which returns to it, and turns back twice.
const CALLS: &[u8] = b"
        MOV   R8,R14
        MOV   R0,#3
again   BL    part
        SUBS  R0,R0,#1
turn    BNE   again
        SUBS  PC,R8,#4
part    STR   R0,[R9]
        MOV   PC,R14
";

// The routine leaves the handler where a word of memory says so.
const LEAVES_IN_CALL: &[u8] = b"
        MOV   R8,R14
        MOV   R0,#3
again   BL    part
        SUBS  R0,R0,#1
turn    BNE   again
        SUBS  PC,R8,#4
part    LDR   R1,[R9]
        TST   R1,#1
away    SUBNES PC,R8,#4
        MOV   PC,R14
";

const LEAVES_1: &[u8] = b"entry = 0x8000
loop = [{header = \"again\", first = \"again\", last = \"turn\", bound = 1}]
target = [{at = \"away\", kind = \"leave\"}]";

#[test]
fn bounds_below_a_count(rt: HostRuntime) -> Result<(), Fail> {
    let alloc = rt.alloc();
    assert!(rt; endless(alloc, DOWN, DOWN_0, &[])?.as_slice() == [0x8004].as_slice());
    assert!(rt; endless(alloc, DOWN, DOWN_1, &[])?.as_slice() == [0x8004].as_slice());
    assert!(rt; endless(alloc, DOWN, DOWN_2, &[])?.is_empty());
    assert!(rt; endless(alloc, DOWN, DOWN_3, &[])?.is_empty());
    assert!(rt; endless(alloc, DOWN_FROM_GIVEN, DOWN_1, FROM_3)?.as_slice() == [0x8004].as_slice());
    assert!(rt; endless(alloc, DOWN_FROM_GIVEN, DOWN_2, FROM_3)?.is_empty());
    assert!(rt; endless(alloc, DOWN_FROM_GIVEN, DOWN_1, &[])?.is_empty());
    assert!(rt; endless(alloc, UP, DOWN_3, &[])?.as_slice() == [0x8004].as_slice());
    Ok(())
}

#[test]
fn ways_out_that_are_not_closed(rt: HostRuntime) -> Result<(), Fail> {
    let alloc = rt.alloc();
    assert!(rt; endless(alloc, UP_SIGNED, DOWN_3, &[])?.is_empty());
    assert!(rt; endless(alloc, BY_MEMORY, DOWN_1, &[])?.is_empty());
    assert!(rt; endless(alloc, MASKED, DOWN_0, &[])?.is_empty());
    assert!(rt; endless(alloc, STAYS, DOWN_3, &[])?.as_slice() == [0x800C].as_slice());
    Ok(())
}

#[test]
fn bounds_of_nested_loops(rt: HostRuntime) -> Result<(), Fail> {
    let alloc = rt.alloc();
    assert!(rt; endless(alloc, NESTED, NESTED_2_3, &[])?.is_empty());
    assert!(rt; endless(alloc, NESTED, NESTED_2_2, &[])?.as_slice() == [0x8008].as_slice());
    assert!(rt; endless(alloc, NESTED, NESTED_1_3, &[])?.as_slice() == [0x8004].as_slice());
    assert!(rt; endless(alloc, NESTED, NESTED_1_2, &[])?.as_slice() == [0x8008, 0x8004].as_slice());
    assert!(rt; endless(alloc, OUT_OF_BOTH, NESTED_1_2, &[])?.is_empty());
    Ok(())
}

#[test]
fn bounds_of_loops_and_calls(rt: HostRuntime) -> Result<(), Fail> {
    let alloc = rt.alloc();
    assert!(rt;
        endless(alloc, CALLED_TWICE, DOWN_1, &[])?.as_slice() == [0x8018, 0x8018].as_slice()
    );
    assert!(rt; endless(alloc, CALLED_TWICE, DOWN_2, &[])?.as_slice() == [0x8018].as_slice());
    assert!(rt; endless(alloc, CALLS, DOWN_1, &[])?.as_slice() == [0x8008].as_slice());
    assert!(rt; endless(alloc, CALLS, DOWN_2, &[])?.is_empty());
    assert!(rt; endless(alloc, LEAVES_IN_CALL, LEAVES_1, &[])?.is_empty());
    Ok(())
}
