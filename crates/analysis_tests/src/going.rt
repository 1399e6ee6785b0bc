//! Where the words go that write R15.

ghost use Rattle.control_flow.specs.Graph.{IsFlowGraph};
ghost use Rattle.loop_bounds.specs.Handler.{HasItsTree};

use crate::handlers::{self, stated};
use arm2_decode::Register;
use bus_ticks::Profile;
use flow_graph::{Statement, build};
use known_places::{Destination, destinations, proposed};
use known_words::Given;
use loader::Image;
use loop_bounds::{Handler, nest};
use std::alloc::{AllocError, Global};
use std::test::Fail;

fn destinations_of(
    alloc: Global,
    handler: &Handler<'_>,
    given: &[Given],
) -> Result<Option<Vec<Destination>>, AllocError>
    requires graph { IsFlowGraph handler.now.image.now handler.now.statement handler.now.graph.profile
        handler.now.graph }
    requires tree { HasItsTree handler.now }
{
    let table = proposed(alloc, handler, given)?;
    destinations(alloc, handler, given, &table)
}

fn destinations_in(
    alloc: Global,
    image: &Image,
    statement: Statement,
    given: &[Given],
) -> Result<Option<Vec<Destination>>, Fail> {
    let graph = build(alloc, image, &statement, &Profile::one())?;
    let tree = nest(alloc, &graph, &statement)?;
    let handler = Handler {
        image,
        statement,
        graph,
        tree,
    };
    Ok(destinations_of(alloc, &handler, given)?)
}

// Those that are seen, in the order of the places' numbers.
fn seen(alloc: Global, source: &[u8], given: &[Given]) -> Result<Vec<Destination>, Fail> {
    let handlers::Handler { image, statement } = stated(alloc, source, ENTRY)?;
    let mut seen = Vec::new(alloc);
    if let Some(found) = destinations_in(alloc, &image, statement, given)? {
        for destination in &found {
            if *destination != Destination::Unknown {
                seen.push(*destination)?;
            }
        }
    }
    Ok(seen)
}

const ENTRY: &[u8] = b"entry = 0x8000";

// A routine that is called twice, and returns in two ways; R14 is kept in another register.
const CALLS: &[u8] = b"
        MOV   R12,R14
        BL    routine
        BL    routine
        SUBS  PC,R12,#4
routine TST   R0,#1
        MOVEQ PC,R14
        MOV   PC,R14
";

// R14 is made to point to what was interrupted first.
const EARLY: &[u8] = b"
        SUB   R14,R14,#4
        MOV   R0,#1
        MOVS  PC,R14
";

// By an address, over a word, and to what is next.
const JUMPS: &[u8] = b"
        ADR   R0,there
        TST   R1,#1
        MOVEQ PC,R0
        MOVNE PC,PC
        MOV   R0,R0
there   SUBS  PC,R14,#4
";

// By words of memory, and by R14 once it was loaded.
const LOADS: &[u8] = b"
        LDR   R14,[R13]
        TST   R0,#1
        MOVEQ PC,R14
        TST   R0,#2
        LDREQ PC,[R12]
        LDMFD R13!,{PC}
";

// Another register of the entry, and a sum of R14 and what is not a number.
const OTHERS: &[u8] = b"
        TST   R0,#1
        MOVEQ PC,R13
        AND   R1,R1,#4
        ADD   PC,R14,R1
";

const GIVEN: &[Given] = &[Given {
    register: Register::R13,
    low: 0x0C00_9003,
    high: 0x0C00_9003,
}];

#[test]
fn each_call_is_returned_to(rt: HostRuntime) -> Result<(), Fail> {
    let found = seen(rt.alloc(), CALLS, &[])?;
    let expected = [
        Destination::To(0x8008),
        Destination::To(0x8008),
        Destination::To(0x800C),
        Destination::To(0x800C),
        Destination::LinkLess(4),
    ];
    assert!(rt; found.as_slice() == expected.as_slice());
    Ok(())
}

#[test]
fn interrupted_program_is_returned_to(rt: HostRuntime) -> Result<(), Fail> {
    let found = seen(rt.alloc(), EARLY, &[])?;
    assert!(rt; found.as_slice() == [Destination::LinkLess(4)].as_slice());
    Ok(())
}

#[test]
fn addresses_are_jumped_to(rt: HostRuntime) -> Result<(), Fail> {
    let found = seen(rt.alloc(), JUMPS, &[])?;
    let expected = [
        Destination::To(0x8014),
        Destination::To(0x8014),
        Destination::LinkLess(4),
    ];
    assert!(rt; found.as_slice() == expected.as_slice());
    Ok(())
}

#[test]
fn loads_are_not_seen(rt: HostRuntime) -> Result<(), Fail> {
    assert!(rt; seen(rt.alloc(), LOADS, &[])?.is_empty());
    assert!(rt; seen(rt.alloc(), OTHERS, &[])?.is_empty());
    Ok(())
}

#[test]
fn flags_of_a_word_are_left_out(rt: HostRuntime) -> Result<(), Fail> {
    let found = seen(rt.alloc(), OTHERS, GIVEN)?;
    assert!(rt; found.as_slice() == [Destination::To(0x9000)].as_slice());
    Ok(())
}
