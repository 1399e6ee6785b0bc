//! Where words go outside of the classes that are stated of them.

ghost use Rattle.control_flow.specs.Graph.{IsFlowGraph};
ghost use Rattle.loop_bounds.specs.Handler.{HasItsTree};

use crate::handlers::{self, stated};
use arm2_decode::Register;
use bus_ticks::Profile;
use flow_graph::{Statement, build};
use known_places::{outside_classes, proposed};
use known_words::{Given, Range};
use loader::Image;
use loop_bounds::{Handler, nest};
use std::alloc::{AllocError, Global};
use std::test::Fail;

fn outside_of(
    alloc: Global,
    handler: &Handler<'_>,
    given: &[Given],
) -> Result<Option<Vec<Option<Range>>>, AllocError>
    requires graph { IsFlowGraph handler.now.image.now handler.now.statement handler.now.graph.profile
        handler.now.graph }
    requires tree { HasItsTree handler.now }
{
    let table = proposed(alloc, handler, given)?;
    outside_classes(alloc, handler, given, &table)
}

fn outside_in(
    alloc: Global,
    image: &Image,
    statement: Statement,
    given: &[Given],
) -> Result<Option<Vec<Option<Range>>>, Fail> {
    let graph = build(alloc, image, &statement, &Profile::one())?;
    let tree = nest(alloc, &graph, &statement)?;
    let handler = Handler {
        image,
        statement,
        graph,
        tree,
    };
    Ok(outside_of(alloc, &handler, given)?)
}

// Those that are seen, each with its lowest and its highest address, in the order of the places' numbers.
fn seen(
    alloc: Global,
    source: &[u8],
    statement: &[u8],
    given: &[Given],
) -> Result<Vec<[u32; 2]>, Fail> {
    let handlers::Handler { image, statement } = stated(alloc, source, statement)?;
    let mut seen = Vec::new(alloc);
    if let Some(found) = outside_in(alloc, &image, statement, given)? {
        for range in &found {
            if let Some(range) = range {
                seen.push([range.low, range.high])?;
            }
        }
    }
    Ok(seen)
}

// RAM, a medium device, ROM, a condition, a register at the entry, and the stack.
const BASES: &[u8] = b"
        MOV   R1,#0x9000
        LDRB  R0,[R1,#6]
        MOV   R2,#0x3080000
        STR   R0,[R2],#4
        MOV   R3,#0x3400000
        LDMIA R3,{R0,R1}
        TST   R0,#1
        LDREQ R0,[R2,#-4]
        STR   R0,[R12]
        STMFD R13!,{R0,R1}
        SUBS  PC,R14,#4
";

const OTHERS: &[u8] = b"entry = 0x8000
access = [
    {at = 0x8004, class = \"rom\"}, {at = 0x800C, class = \"slow\"}, {at = 0x8014, class = \"io\"},
    {at = 0x801C, class = \"ram\"}, {at = 0x8020, class = \"ram\"}, {at = 0x8024, class = \"fast\"}]";

const OWN: &[u8] = b"entry = 0x8000
access = [
    {at = 0x8004, class = \"ram\"}, {at = 0x800C, class = \"medium\"}, {at = 0x8014, class = \"rom\"},
    {at = 0x801C, class = \"io\"}, {at = 0x8020, class = \"any\"}, {at = 0x8024, class = \"ram\"}]";

// From the third last word of RAM up, and from a block that begins there.
const UP_TO_DEVICES: &[u8] = b"
        MOV   R2,#0x3000000
        SUB   R2,R2,#12
        LDR   R0,[R12]
wait    STR   R3,[R2],#4
        SUBS  R0,R0,#1
again   BNE   wait
        MOV   R2,#0x3000000
        STMDB R2,{R0,R1}
        STMIB R2,{R0,R1}
        SUBS  PC,R14,#4
";

const DEVICES_3_TIMES: &[u8] = b"entry = 0x8000
access = [{at = \"wait\", class = \"io\"}, {at = 0x801C, class = \"io\"}, {at = 0x8020, class = \"ram\"}]
loop = [{header = \"wait\", first = \"wait\", last = \"again\", bound = 2}]";

const DEVICES_4_TIMES: &[u8] = b"entry = 0x8000
access = [{at = \"wait\", class = \"io\"}, {at = 0x801C, class = \"ram\"}, {at = 0x8020, class = \"io\"}]
loop = [{header = \"wait\", first = \"wait\", last = \"again\", bound = 3}]";

// By a base of 2^26, which is an exception, and by one of which two speeds are possible.
const PAST: &[u8] = b"
        MOV   R1,#0x4000000
        LDR   R0,[R1]
        LDR   R0,[R13]
        LDR   R0,[R13,#-8]
        SUBS  PC,R14,#4
";

const DEVICES: &[u8] = b"entry = 0x8000
access = [{at = 0x8004, class = \"ram\"}, {at = 0x8008, class = \"fast\"}, {at = 0x800C, class = \"fast\"}]";

const STACK: &[Given] = &[Given {
    register: Register::R13,
    low: 0x9002,
    high: 0x9FFE,
}];

const TWO_SPEEDS: &[Given] = &[Given {
    register: Register::R13,
    low: 0x307_FFF8,
    high: 0x308_0004,
}];

#[test]
fn classes_of_other_addresses(rt: HostRuntime) -> Result<(), Fail> {
    let found = seen(rt.alloc(), BASES, OTHERS, STACK)?;
    let expected = [
        [0x9004, 0x9004],
        [0x308_0000, 0x308_0000],
        [0x340_0000, 0x340_0000],
        [0x308_0000, 0x308_0000],
        [0x8FF8, 0x9FF4],
    ];
    assert!(rt; found.as_slice() == expected.as_slice());
    Ok(())
}

#[test]
fn classes_of_the_same_addresses(rt: HostRuntime) -> Result<(), Fail> {
    assert!(rt; seen(rt.alloc(), BASES, OWN, STACK)?.is_empty());
    Ok(())
}

#[test]
fn classes_in_a_loop_and_of_blocks(rt: HostRuntime) -> Result<(), Fail> {
    let found = seen(rt.alloc(), UP_TO_DEVICES, DEVICES_3_TIMES, &[])?;
    let expected = [
        [0x2FF_FFF4, 0x2FF_FFFC],
        [0x2FF_FFF8, 0x2FF_FFF8],
        [0x300_0004, 0x300_0004],
    ];
    assert!(rt; found.as_slice() == expected.as_slice());
    assert!(rt; seen(rt.alloc(), UP_TO_DEVICES, DEVICES_4_TIMES, &[])?.is_empty());
    Ok(())
}

#[test]
fn classes_that_are_not_seen(rt: HostRuntime) -> Result<(), Fail> {
    let found = seen(rt.alloc(), PAST, DEVICES, TWO_SPEEDS)?;
    assert!(rt; found.as_slice() == [[0x307_FFF0, 0x307_FFFC]].as_slice());
    Ok(())
}
