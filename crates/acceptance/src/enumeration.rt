//! Small handlers made by a fixed generator: the greatest walk found in the folded way beside the greatest
//! of all walks that keep the bounds, unrolled.

use crate::numbers::Numbers;
use assembler::assemble;
use bus_ticks::Profile;
use flow_graph::{Edge, Graph, Place, build, read_statement};
use loader::Labels;
use longest_walk::longest;
use loop_bounds::nest;
use std::alloc::{AllocError, Global};
use std::test::Fail;

// A loop as a statement states it: header, first, last and bound.
type Stated = (u32, u32, u32, u32);

// How many instructions a handler has before its return.
const LENGTH: u32 = 8;

// The address of an instruction of the handler.
fn address_at(number: u32) -> u32 {
    number.wrapping_mul(4).wrapping_add(0x8000)
}

// A branch to an instruction of the handler, where flags say so.
fn branch(alloc: Global, to: u32) -> Result<String, AllocError> {
    format!(in alloc; " BNE &{:X}\n", address_at(to))
}

// Instructions that cost different numbers of ticks, with up to three loops and some branches forward.
fn handler(alloc: Global, numbers: &mut Numbers) -> Result<(Vec<String>, Vec<Stated>), AllocError> {
    let mut lines = Vec::new(alloc);
    for at in 0..LENGTH {
        let line = match numbers.below(4) {
            0 => String::from_str(alloc, " SUBS R0,R0,#1\n")?,
            1 => String::from_str(alloc, " MUL R2,R3,R4\n")?,
            2 => {
                let to = at.wrapping_add(2).wrapping_add(numbers.below(2));
                branch(alloc, to.min(LENGTH))?
            }
            _ => String::from_str(alloc, " MOV R0,#3\n")?,
        };
        lines.push(line)?;
    }
    lines.push(String::from_str(alloc, " SUBS PC,R14,#4\n")?)?;
    let mut loops = Vec::new(alloc);
    for _ in 0..numbers.below(4) {
        let header = numbers.below(LENGTH);
        let last = header.wrapping_add(numbers.below(LENGTH.wrapping_sub(header)));
        if let Some(line) = lines.get_mut(last as usize) {
            *line = branch(alloc, header)?;
        }
        let first = address_at(header);
        loops.push((first, first, address_at(last), numbers.below(3)))?;
    }
    Ok((lines, loops))
}

fn address_of(place: &Place) -> Option<u32> {
    match place {
        Place::At(_, address) => Some(*address),
        Place::Exit => None,
    }
}

// The rounds that a stay has taken of each loop, after one more edge; none where that breaks a bound.
fn after(rounds: [u32; 3], edge: &Edge, loops: &[Stated]) -> Option<[u32; 3]> {
    let mut new = [0; 3];
    let from = address_of(&edge.from)?;
    let Some(to) = address_of(&edge.to) else {
        return Some(new);
    };
    for (number, (header, first, last, bound)) in loops.iter().enumerate() {
        let inside = *first <= from && from <= *last && *first <= to && to <= *last;
        if !inside || number >= 3 {
            continue;
        }
        let taken = rounds[number];
        let turns = u32::from(to == *header);
        if taken.saturating_add(turns) > *bound {
            return None;
        }
        new[number] = taken.saturating_add(turns);
    }
    Some(new)
}

// A walk's end, the rounds of the stays that go on there, and the walk's cost.
#[derive(Clone, Copy)]
struct Reached {
    place: Place,
    rounds: [u32; 3],
    cost: u64,
}

// The walks that are one edge longer; of those to one end with the same rounds only the dearest.
fn longer(
    alloc: Global,
    graph: &Graph,
    loops: &[Stated],
    walks: &[Reached],
) -> Result<Vec<Reached>, AllocError> {
    let mut next: Vec<Reached> = Vec::new(alloc);
    for walk in walks {
        for edge in graph.edges() {
            if edge.from != walk.place {
                continue;
            }
            let Some(rounds) = after(walk.rounds, edge, loops) else {
                continue;
            };
            let cost = walk.cost.saturating_add(u64::from(edge.cost));
            keep_dearest(
                &mut next,
                Reached {
                    place: edge.to,
                    rounds,
                    cost,
                },
            )?;
        }
    }
    Ok(next)
}

fn keep_dearest(walks: &mut Vec<Reached>, new: Reached) -> Result<(), AllocError> {
    for known in walks.iter_mut() {
        if known.place == new.place && known.rounds == new.rounds {
            known.cost = known.cost.max(new.cost);
            return Ok(());
        }
    }
    walks.push(new)?;
    Ok(())
}

// The greatest cost of a walk to Exit that keeps the bounds, of at most so many edges.
fn enumerated(alloc: Global, graph: &Graph, loops: &[Stated]) -> Result<Option<u64>, AllocError> {
    let mut best = None;
    let mut walks = Vec::new(alloc);
    walks.push(Reached {
        place: graph.entry(),
        rounds: [0; 3],
        cost: 0,
    })?;
    for _ in 0..1000 {
        if walks.is_empty() {
            return Ok(best);
        }
        walks = longer(alloc, graph, loops, &walks)?;
        for walk in &walks {
            if walk.place == Place::Exit {
                best = best.max(Some(walk.cost));
            }
        }
    }
    Ok(None)
}

// A statement of the entry 8000 and these loops.
fn statement_of(alloc: Global, loops: &[Stated]) -> Result<String, AllocError> {
    let mut text = String::from_str(alloc, "entry = 0x8000\n")?;
    for (header, first, last, bound) in loops {
        let table = format!(in alloc;
            "[[loop]]\nheader = {header}\nfirst = {first}\nlast = {last}\nbound = {bound}\n"
        )?;
        text.push_str(table.as_str())?;
    }
    Ok(text)
}

// Whether the handler has a tree of loops and both ways agree on its bound; none where it has no tree.
fn agrees(alloc: Global, lines: &[String], loops: &[Stated]) -> Result<Option<bool>, Fail> {
    let mut source = String::new(alloc);
    for line in lines {
        source.push_str(line.as_str())?;
    }
    let image = assemble(alloc, source.as_bytes())?.image;
    let text = statement_of(alloc, loops)?;
    let statement = read_statement(alloc, text.as_bytes(), &Labels::new(alloc))?;
    let graph = build(alloc, &image, &statement, &Profile::one())?;
    let Ok(tree) = nest(alloc, &graph, &statement) else {
        return Ok(None);
    };
    let bound = match longest(alloc, &graph, &tree) {
        Ok(found) => Some(found.bound),
        Err(_) => None,
    };
    Ok(Some(enumerated(alloc, &graph, loops)? == bound))
}

#[test]
fn folded_and_unrolled_agree(rt: HostRuntime) -> Result<(), Fail> {
    let alloc = rt.alloc();
    let mut numbers = Numbers::new(2);
    let mut compared = 0u32;
    for number in 0..1000u32 {
        let (lines, loops) = handler(alloc, &mut numbers)?;
        if let Some(same) = agrees(alloc, &lines, &loops)? {
            assert!(rt; same, "handler {number}");
            compared = compared.saturating_add(1);
        }
    }
    assert!(rt; compared >= 300, "compared {compared}");
    Ok(())
}
