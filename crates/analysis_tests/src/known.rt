//! Which of the classes and the loop bounds that are stated follow from the code.

ghost use Rattle.control_flow.specs.Graph.{IsFlowGraph};
ghost use Rattle.loop_bounds.specs.Handler.{HasItsTree};

use crate::handlers::{self, stated};
use arm2_decode::Register;
use bus_ticks::Profile;
use flow_graph::{Statement, build};
use known_places::{OnTrust, left_on_trust, proposed};
use known_words::Given;
use loader::Image;
use loop_bounds::{Handler, nest};
use std::alloc::{AllocError, Global};
use std::test::Fail;

fn left_of(
    alloc: Global,
    handler: &Handler<'_>,
    given: &[Given],
) -> Result<Option<OnTrust>, AllocError>
    requires graph { IsFlowGraph handler.now.image.now handler.now.statement handler.now.graph.profile
        handler.now.graph }
    requires tree { HasItsTree handler.now }
{
    let table = proposed(alloc, handler, given)?;
    left_on_trust(alloc, handler, given, &table)
}

fn left_in(
    alloc: Global,
    image: &Image,
    statement: Statement,
    given: &[Given],
) -> Result<Option<OnTrust>, Fail> {
    let graph = build(alloc, image, &statement, &Profile::one())?;
    let tree = nest(alloc, &graph, &statement)?;
    let handler = Handler {
        image,
        statement,
        graph,
        tree,
    };
    Ok(left_of(alloc, &handler, given)?)
}

// What is on trust; none where nothing is known.
fn left(
    alloc: Global,
    source: &[u8],
    statement: &[u8],
    given: &[Given],
) -> Result<Option<OnTrust>, Fail> {
    let handlers::Handler { image, statement } = stated(alloc, source, statement)?;
    left_in(alloc, &image, statement, given)
}

// The addresses at which classes are on trust.
fn classes(
    alloc: Global,
    source: &[u8],
    statement: &[u8],
    given: &[Given],
) -> Result<Vec<u32>, Fail> {
    match left(alloc, source, statement, given)? {
        Some(trusted) => Ok(trusted.classes),
        None => Ok(Vec::new(alloc)),
    }
}

// The addresses of the headers of loops whose bounds are on trust.
fn loops(alloc: Global, source: &[u8], statement: &[u8]) -> Result<Vec<u32>, Fail> {
    match left(alloc, source, statement, &[])? {
        Some(trusted) => Ok(trusted.loops),
        None => Ok(Vec::new(alloc)),
    }
}

// Of an exact base, a masked index, a register at the entry, a word of memory, and the stack.
const BASES: &[u8] = b"
        MOV   R1,#0x3200000
        LDRB  R0,[R1,#0x14]
        LDR   R2,[R12]
        AND   R0,R0,#15
        ADR   R3,table
        LDR   R4,[R3,R0,LSL #2]
        LDR   R5,[R2]
        STMFD R13!,{R0,R1}
        SUBS  PC,R14,#4
table   DCD   0,0,0,0,0,0,0,0,0,0,0,0,0,0,0,0
";

const CLASSES: &[u8] = b"entry = 0x8000
access = [
    {at = 0x8004, class = \"io\"}, {at = 0x8008, class = \"ram\"}, {at = 0x8014, class = \"ram\"},
    {at = 0x8018, class = \"ram\"}, {at = 0x801C, class = \"ram\"}]";

// A base that stays, and one that moves at each turn.
const TURNS: &[u8] = b"
        MOV  R1,#0x3200000
        MOV  R2,#0x9000
        MOV  R0,#3
wait    LDRB R3,[R1]
        STRB R3,[R2],#1
        SUBS R0,R0,#1
again   BNE  wait
        SUBS PC,R14,#4
";

const LOOP: &[u8] = b"entry = 0x8000
access = [{at = 0x800C, class = \"io\"}, {at = 0x8010, class = \"ram\"}]
loop = [{header = \"wait\", first = \"wait\", last = \"again\", bound = 2}]";

const LOOP_OF_2: &[u8] = b"entry = 0x8000
loop = [{header = \"wait\", first = \"wait\", last = \"again\", bound = 1}]";

// From the third last word of RAM up.
const UP_TO_DEVICES: &[u8] = b"
        MOV  R2,#0x3000000
        SUB  R2,R2,#12
        LDR  R0,[R12]
wait    STR  R3,[R2],#4
        SUBS R0,R0,#1
again   BNE  wait
        SUBS PC,R14,#4
";

const RAM_TWICE: &[u8] = b"entry = 0x8000
access = [{at = \"wait\", class = \"ram\"}]
loop = [{header = \"wait\", first = \"wait\", last = \"again\", bound = 1}]";

const RAM_4_TIMES: &[u8] = b"entry = 0x8000
access = [{at = \"wait\", class = \"ram\"}]
loop = [{header = \"wait\", first = \"wait\", last = \"again\", bound = 3}]";

// From the second word of the devices down.
const DOWN_TO_RAM: &[u8] = b"
        MOV  R2,#0x3000000
        ADD  R2,R2,#4
        LDR  R0,[R12]
wait    STR  R3,[R2],#-4
        SUBS R0,R0,#1
again   BNE  wait
        SUBS PC,R14,#4
";

const DEVICES_TWICE: &[u8] = b"entry = 0x8000
access = [{at = \"wait\", class = \"io\"}]
loop = [{header = \"wait\", first = \"wait\", last = \"again\", bound = 1}]";

const DEVICES_3_TIMES: &[u8] = b"entry = 0x8000
access = [{at = \"wait\", class = \"io\"}]
loop = [{header = \"wait\", first = \"wait\", last = \"again\", bound = 2}]";

// From 3 down to 0, and once more.
const BELOW: &[u8] = b"
        MOV  R0,#3
wait    SUBS R0,R0,#1
again   BPL  wait
        SUBS PC,R14,#4
";

// From 1 up to 4.
const UP_TO: &[u8] = b"
        MOV  R0,#1
wait    ADD  R0,R0,#1
        CMP  R0,#5
again   BNE  wait
        SUBS PC,R14,#4
";

// From 0 by threes up to 9.
const UP_BELOW: &[u8] = b"
        MOV  R0,#0
wait    ADD  R0,R0,#3
        CMP  R0,#10
again   BCC  wait
        SUBS PC,R14,#4
";

// From a count of 1 to 15.
const MASKED_COUNT: &[u8] = b"
        ANDS R0,R0,#15
        BEQ  out
wait    SUBS R0,R0,#1
again   BNE  wait
out     SUBS PC,R14,#4
";

const COUNT_IN_RAM: &[u8] = b"
        LDR  R0,[R12]
wait    SUBS R0,R0,#1
again   BNE  wait
        SUBS PC,R14,#4
";

const BOUND_OF_2: &[u8] = b"entry = 0x8000
loop = [{header = \"wait\", first = \"wait\", last = \"again\", bound = 2}]";

const BOUND_OF_3: &[u8] = b"entry = 0x8000
loop = [{header = \"wait\", first = \"wait\", last = \"again\", bound = 3}]";

const BOUND_OF_13: &[u8] = b"entry = 0x8000
loop = [{header = \"wait\", first = \"wait\", last = \"again\", bound = 13}]";

const BOUND_OF_14: &[u8] = b"entry = 0x8000
loop = [{header = \"wait\", first = \"wait\", last = \"again\", bound = 14}]";

// Four times from 3 down to 0, with the outer count in a register that the inner loop leaves.
const NEST: &[u8] = b"
        MOV  R1,#4
outer   MOV  R0,#3
inner   SUBS R0,R0,#1
turn    BNE  inner
        SUBS R1,R1,#1
again   BNE  outer
        SUBS PC,R14,#4
";

const NEST_OF_3_AND_2: &[u8] = b"entry = 0x8000
loop = [
    {header = \"outer\", first = \"outer\", last = \"again\", bound = 3},
    {header = \"inner\", first = \"inner\", last = \"turn\", bound = 2}]";

const NEST_OF_2_AND_1: &[u8] = b"entry = 0x8000
loop = [
    {header = \"outer\", first = \"outer\", last = \"again\", bound = 2},
    {header = \"inner\", first = \"inner\", last = \"turn\", bound = 1}]";

// The mode is written inside of the handler.
const MASKED: &[u8] = b"
        MOV  R1,#0x3200000
        TEQP PC,#0xC000000
        LDRB R0,[R1]
        SUBS PC,R14,#4
";

const DEVICE: &[u8] = b"entry = 0x8000
access = [{at = 0x8008, class = \"io\"}]";

// A device and the stack, of which facts tell.
const GIVEN: &[Given] = &[
    Given {
        register: Register::R12,
        low: 0x331_0000,
        high: 0x331_0000,
    },
    Given {
        register: Register::R13,
        low: 0x9000,
        high: 0x9FFC,
    },
];

#[test]
fn bases_that_are_known(rt: HostRuntime) -> Result<(), Fail> {
    let found = classes(rt.alloc(), BASES, CLASSES, &[])?;
    assert!(rt; found.as_slice() == [0x8008, 0x8018, 0x801C].as_slice());
    Ok(())
}

#[test]
fn bases_that_are_given(rt: HostRuntime) -> Result<(), Fail> {
    let found = classes(rt.alloc(), BASES, CLASSES, GIVEN)?;
    assert!(rt; found.as_slice() == [0x8008, 0x8018].as_slice());
    Ok(())
}

#[test]
fn bases_in_a_loop(rt: HostRuntime) -> Result<(), Fail> {
    assert!(rt; classes(rt.alloc(), TURNS, LOOP, &[])?.is_empty());
    Ok(())
}

#[test]
fn bases_that_rise(rt: HostRuntime) -> Result<(), Fail> {
    assert!(rt; classes(rt.alloc(), UP_TO_DEVICES, RAM_TWICE, &[])?.is_empty());
    let past = classes(rt.alloc(), UP_TO_DEVICES, RAM_4_TIMES, &[])?;
    assert!(rt; past.as_slice() == [0x800C].as_slice());
    Ok(())
}

#[test]
fn bases_that_fall(rt: HostRuntime) -> Result<(), Fail> {
    assert!(rt; classes(rt.alloc(), DOWN_TO_RAM, DEVICES_TWICE, &[])?.is_empty());
    let below = classes(rt.alloc(), DOWN_TO_RAM, DEVICES_3_TIMES, &[])?;
    assert!(rt; below.as_slice() == [0x800C].as_slice());
    Ok(())
}

#[test]
fn counts_down_to_0(rt: HostRuntime) -> Result<(), Fail> {
    assert!(rt; loops(rt.alloc(), TURNS, LOOP)?.is_empty());
    let short = loops(rt.alloc(), TURNS, LOOP_OF_2)?;
    assert!(rt; short.as_slice() == [0x800C].as_slice());
    Ok(())
}

#[test]
fn counts_down_below_0(rt: HostRuntime) -> Result<(), Fail> {
    assert!(rt; loops(rt.alloc(), BELOW, BOUND_OF_3)?.is_empty());
    let short = loops(rt.alloc(), BELOW, BOUND_OF_2)?;
    assert!(rt; short.as_slice() == [0x8004].as_slice());
    Ok(())
}

#[test]
fn counts_up(rt: HostRuntime) -> Result<(), Fail> {
    assert!(rt; loops(rt.alloc(), UP_TO, BOUND_OF_3)?.is_empty());
    assert!(rt; loops(rt.alloc(), UP_BELOW, BOUND_OF_3)?.is_empty());
    let short = loops(rt.alloc(), UP_TO, BOUND_OF_2)?;
    assert!(rt; short.as_slice() == [0x8004].as_slice());
    Ok(())
}

#[test]
fn counts_from_a_mask(rt: HostRuntime) -> Result<(), Fail> {
    assert!(rt; loops(rt.alloc(), MASKED_COUNT, BOUND_OF_14)?.is_empty());
    let short = loops(rt.alloc(), MASKED_COUNT, BOUND_OF_13)?;
    assert!(rt; short.as_slice() == [0x8008].as_slice());
    Ok(())
}

#[test]
fn counts_in_a_loop(rt: HostRuntime) -> Result<(), Fail> {
    assert!(rt; loops(rt.alloc(), NEST, NEST_OF_3_AND_2)?.is_empty());
    let short = loops(rt.alloc(), NEST, NEST_OF_2_AND_1)?;
    assert!(rt; short.as_slice() == [0x8008, 0x8004].as_slice());
    Ok(())
}

#[test]
fn counts_from_memory(rt: HostRuntime) -> Result<(), Fail> {
    let found = loops(rt.alloc(), COUNT_IN_RAM, BOUND_OF_14)?;
    assert!(rt; found.as_slice() == [0x8004].as_slice());
    Ok(())
}

#[test]
fn mode_that_is_written(rt: HostRuntime) -> Result<(), Fail> {
    assert!(rt; left(rt.alloc(), MASKED, DEVICE, &[])?.is_none());
    Ok(())
}
