ghost use Rattle.std.specs.Prelude.{◌≡◌, ◌<◌, length, MatchResult};
ghost use Rattle.control_flow.specs.Graph.{IsFlowGraph};
ghost use Rattle.control_flow.specs.Places.{place_at};
ghost use Rattle.kept_runs.specs.Judging.{IsAtPlace, Strays, StraysBy, Takes, label_if, made};

use crate::edges::{Going, edge_taken};
use crate::reading::{own_word, read_word};
use crate::stated_word::departs;
use crate::transfers::Access;
use arm2_exec::{Input, Kind, Machine, Stepped, Vector, Why};
use bus_ticks::Class;
use control_flow::Label;
use loop_bounds::Handler;
use statement::Taken;

/// How a step is along no edge of its place, by the statement.
#[derive(Clone, Copy, Debug, PartialEq, Eq)]
pub enum Stray {
    /// The image has no word at the machine's address, or the machine fetches another there, or none.
    OtherWord,
    /// The step takes an exception.
    Exception(Vector),
    /// The machine stops.
    Stopped(Why),
    /// The word has a condition, and goes another way than this one, which is stated.
    OtherWay(Taken),
    /// The step transfers a word of another class than this one, which is stated: the first that it does.
    OtherClass { access: Access, stated: Class },
    /// The multiply takes so many cycles, 2 to 16, more than are stated.
    MoreCycles(u32),
    /// The step goes to an address, in bytes, to which no edge of its place leads.
    Elsewhere(u32),
}

/// A step along an edge.
#[derive(Clone, Copy)]
pub struct EdgeTaken {
    /// The edge's index in the graph's edges.
    pub edge: usize,
    pub stepped: Stepped,
}

fn label_if(holds: bool) -> Label
    ensures { result ≡ label_if holds }
{
    if holds { Label::Do } else { Label::Skip }
}

/// A step that is along no edge of its place.
#[derive(Clone, Copy)]
pub(crate) struct StrayStep {
    pub(crate) stray: Stray,
    /// None where the machine does not fetch the image's word, as no step is made then.
    pub(crate) stepped: Option<Stepped>,
}

fn made(stray: Stray, stepped: Stepped) -> StrayStep
    ensures { result ≡ made stray stepped }
{
    StrayStep {
        stray,
        stepped: Some(stepped),
    }
}

// The same as `judge_step`, with the step that strays.
pub(crate) fn judge(
    handler: &Handler<'_>,
    machine: &mut Machine,
    place: usize,
    input: Input,
) -> Result<EdgeTaken, StrayStep>
    requires graph { IsFlowGraph handler.now.image.now handler.now.statement handler.now.graph.profile
        handler.now.graph }
    requires known { place < length handler.now.graph.places }
    requires is_there { IsAtPlace handler.now.graph (place_at handler.now.graph.places place) machine.old }
    ensures { MatchResult result
        (Takes handler.now.image.now handler.now.statement handler.now.graph
        (place_at handler.now.graph.places place) machine.old input machine.new)
        (StraysBy handler.now.image.now handler.now.statement handler.now.graph
        (place_at handler.now.graph.places place) machine.old input machine.new) }
{
    let Some(word) = own_word(handler.image, machine) else {
        return Err(StrayStep {
            stray: Stray::OtherWord,
            stepped: None,
        });
    };
    let address = machine.address();
    let reading = read_word(machine, word);
    let stray = departs(&handler.statement, address, &reading);
    let stepped = machine.step(input);
    match stepped.kind {
        Kind::Taken(vector) => return Err(made(Stray::Exception(vector), stepped)),
        Kind::Stopped(why) => return Err(made(Stray::Stopped(why), stepped)),
        Kind::Plain => {}
    }
    if let Some(stray) = stray {
        return Err(made(stray, stepped));
    }
    let going = Going {
        label: label_if(reading.holds),
        to: stepped.to,
        leave: handler.statement.leave(),
    };
    match edge_taken(&handler.graph, place, going) {
        Some(edge) => Ok(EdgeTaken { edge, stepped }),
        None => Err(made(Stray::Elsewhere(stepped.to), stepped)),
    }
}

/// Makes one step of a machine that is at a place of the graph, named by its index: along which edge of
/// the place it is, by the statement.
///
/// It takes time linear in the edges of the place, and no memory.
///
/// # Errors
///
/// A [`Stray`] where no edge of the place is that of the step. The step is made all the same, but where the
/// machine does not fetch the image's word.
pub fn judge_step(
    handler: &Handler<'_>,
    machine: &mut Machine,
    place: usize,
    input: Input,
) -> Result<EdgeTaken, Stray>
    requires graph { IsFlowGraph handler.now.image.now handler.now.statement handler.now.graph.profile
        handler.now.graph }
    requires known { place < length handler.now.graph.places }
    requires is_there { IsAtPlace handler.now.graph (place_at handler.now.graph.places place) machine.old }
    ensures { MatchResult result
        (Takes handler.now.image.now handler.now.statement handler.now.graph
        (place_at handler.now.graph.places place) machine.old input machine.new)
        (Strays handler.now.image.now handler.now.statement handler.now.graph
        (place_at handler.now.graph.places place) machine.old input machine.new) }
{
    match judge(handler, machine, place, input) {
        Ok(taken) => Ok(taken),
        Err(step) => Err(step.stray),
    }
}
