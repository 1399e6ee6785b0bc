//! The lines of edges that were printed lately. A loop's body appears twice in a walk, so most lines
//! have been printed before.

ghost use Rattle.std.specs.Prelude.{◌≡◌, ◌≤◌, IsTrue, take};
ghost use Rattle.outputs.specs.OnTheWay.{Adds};
ghost use Rattle.certificate.specs.Walk.{step_of, to_of};
ghost use Rattle.certificate.specs.Words.{ended, step_words};
ghost use Rattle.certificate.specs.declared.lines_lately.TheConstants.{EDGE_ROOM};

use crate::line_end::LineEnd;
use crate::steps_lately::{ROWS, row_of};
use crate::walk::{StepLine, To};
use control_flow::{Edge, Label, Place};
use outputs::{Output, Page};

// The most bytes of an edge's line.
const EDGE_ROOM: usize = 56;

// An edge as a certificate names it, and its line.
#[derive(Clone, Copy)]
struct Printed {
    step: StepLine,
    bytes: [u8; EDGE_ROOM],
    len: usize,
    ghost fits: { len ≤ EDGE_ROOM },
    ghost says: { take len bytes ≡ ended (step_words step) },
}

/// The lines that were printed lately, one for each label at an address.
#[derive(Drop)]
pub(crate) struct LinesLately {
    rows: [Printed; ROWS],
}

// Where the edge leads, as a certificate names it.
fn to_of(place: &Place) -> To
    ensures { result ≡ to_of place.now }
{
    match place {
        Place::At(_, address) => To::At(*address),
        Place::Exit => To::Exit,
    }
}

fn step_of(edge: &Edge) -> StepLine
    ensures { result ≡ step_of edge.now }
{
    StepLine {
        address: edge.from.address(),
        label: edge.label,
        to: to_of(&edge.to),
        cost: u64::from(edge.cost),
    }
}

impl Printed {
    fn of(edge: &Edge) -> Printed
        ensures { result.step ≡ step_of edge.now }
    {
        let mut line = LineEnd::new();
        line.put_step(edge);
        let items = line.bytes();
        let mut bytes = [0; EDGE_ROOM];
        bytes[..items.len()].copy_from_slice(items);
        Printed {
            step: step_of(edge),
            bytes,
            len: items.len(),
        }
    }

    fn is_of(&self, step: &StepLine) -> bool
        ensures { IsTrue result → self.now.step ≡ step.now }
    {
        self.step == *step
    }

    fn line(&self) -> &[u8]
        ensures { result.now ≡ ended (step_words self.now.step) }
    {
        &self.bytes[..self.len]
    }
}

impl LinesLately {
    /// The line of one edge at each place.
    pub(crate) fn new() -> LinesLately {
        let edge = Edge {
            from: Place::Exit,
            label: Label::Skip,
            to: Place::Exit,
            cost: 0,
        };
        LinesLately {
            rows: [Printed::of(&edge); ROWS],
        }
    }

    /// Puts the line of an edge, which is made where it was not printed lately.
    pub(crate) fn put<O: Output>(&mut self, out: &mut O, page: &mut Page, edge: &Edge)
        ensures { Adds O.taken O.failures out.old page.old out.new page.new
            (ended (step_words (step_of edge.now))) }
    {
        let step = step_of(edge);
        let place = row_of(step.address, step.label);
        let rows = &mut self.rows[..];
        if rows[place].is_of(&step) {
            page.put(out, rows[place].line());
            return;
        }
        let row = Printed::of(edge);
        page.put(out, row.line());
        rows[place] = row;
    }
}
