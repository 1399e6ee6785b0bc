ghost use Rattle.std.specs.Prelude.{◌≡◌, ◌≤◌, ◌+◌, IfOk, IfErr, OnOk, Ok, length};
ghost use Rattle.bus_ticks.specs.declared.space.TheConstants.{SPACE_END};
ghost use Rattle.asm_text.specs.Statements.{line_of};
ghost use Rattle.assembler.specs.Placed.{ArePlaced, IsPlaceFault};
ghost use Rattle.assembler.specs.Sweeps.{assembled, line_step};
ghost use Rattle.assembler.specs.Views.{Faulted, FaultedAt, state_of};

use crate::fault::AsmFault;
use crate::placed_line::PlacedLine;
use crate::sweep::Sweep;
use asm_text::{first_line, lines_are_spelled};
use std::alloc::Global;

// Goes past a line, and answers where its words are.
fn place_line<'a>(
    alloc: Global,
    sweep: &mut Sweep<'a>,
    number: usize,
    text: &'a [u8],
) -> Result<PlacedLine, AsmFault>
    requires { sweep.old.at ≤ SPACE_END }
    ensures ok { OnOk result
        (line_step (state_of sweep.old) number (line_of text.now) ≡ Ok (state_of sweep.new)) }
    ensures within { OnOk result (sweep.new.at ≤ SPACE_END) }
    ensures at { IfOk result (λ line. line.at ≡ sweep.old.at) }
    ensures words { IfOk result
        (λ line. length sweep.new.items.items ≡ length sweep.old.items.items + line.words) }
    ensures fault { IfErr result
        (λ fault. Faulted fault number (line_step (state_of sweep.old) number (line_of text.now))) }
{
    let at = sweep.at;
    let before = sweep.items.len();
    sweep.read(alloc, number, text)?;
    Ok(PlacedLine {
        at,
        words: sweep.items.len() - before,
    })
}

/// The address of each line of a source, and how many words it has.
///
/// # Errors
///
/// The first line with a fault that [`assemble`](crate::assembly::assemble) finds in its first pass, which
/// needs no label's address; it answers the same. What it finds only in the second, by a label's address or
/// because it is missing, is not looked for. `Memory`: an allocation failed.
#[tactic(auto, using(crate::proofs::SweepLaws::swept_more), unfolding(crate::specs::Sweeps::swept))]
pub fn placed_lines(alloc: Global, source: &[u8]) -> Result<Vec<PlacedLine>, AsmFault>
    ensures ok { IfOk result (λ placed. ArePlaced source.now placed.items) }
    ensures fault { IfErr result (λ fault. FaultedAt fault (assembled source.now)) }
    ensures refused { IfErr result (λ fault. IsPlaceFault source.now fault) }
{
    lines_are_spelled();
    let mut sweep = Sweep::new(alloc);
    let mut placed = Vec::new(alloc);
    let mut rest = source;
    let mut number = 1;
    while let Some((text, after)) = first_line(rest) {
        placed.push(place_line(alloc, &mut sweep, number, text)?)?;
        rest = after;
        number += 1;
    }
    Ok(placed)
}
