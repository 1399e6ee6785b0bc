ghost use Rattle.std.specs.Prelude.{◌≡◌, IfOk};
ghost use Rattle.kept_runs.specs.Keeping.{IsHandler};

use crate::puts::Puts;
use crate::trial::Answer;
use arcwcet::ReportFault;
use assembler::assemble;
use bus_ticks::Profile;
use flow_graph::{
    BuildFault, Calls, Edge, Graph, Label, Place, Statement, Tight, TightFault, build,
    read_statement, tight_state,
};
use loader::Image;
use longest_walk::{FoldedWalk, Item, Longest, WalkFault, longest};
use loop_bounds::{Handler, Instances, LoopTree, NestFault, nest};
use samples::nested_countdown::{SOURCE, STATEMENT};
use sources::{Source, SourceText};
use std::alloc::Global;

// An edge of the nested countdown: the branch that turns its inner loop, which takes 4 ticks.
const EDGE: usize = 4;

/// A call on the nested countdown. None changes a value.
#[derive(Clone, Copy)]
pub(crate) enum AnalysisCall {
    Build,
    Tight,
    Nest,
    Nested,
    Longest,
}

/// A handler's image and statement.
#[derive(Drop)]
pub(crate) struct Stated {
    pub(crate) image: Image,
    pub(crate) statement: Statement,
}

/// The words of a source, as of an image.
pub(crate) fn image_of(source: Source<'_>) -> Source<'_> {
    Source {
        image: source.image,
        labels: source.labels,
        text: SourceText::Image,
    }
}

/// A call on a handler.
pub(crate) trait HandlerCall: Copy {
    fn on(self, alloc: Global, handler: &Stated) -> Result<Answer, ReportFault>;
}

/// The handler of a source and a statement.
pub(crate) fn handler_of(
    alloc: Global,
    source: &[u8],
    statement: &[u8],
) -> Result<Stated, ReportFault> {
    let said = assemble(alloc, source)?;
    match read_statement(alloc, statement, &said.labels) {
        Ok(statement) => Ok(Stated {
            image: said.image,
            statement,
        }),
        Err(fault) => {
            drop(said);
            Err(fault.into())
        }
    }
}

/// The handler of a source that was read, and a statement.
pub(crate) fn accepted_on<'s>(
    alloc: Global,
    said: &'s Source<'_>,
    statement: &[u8],
    profile: &Profile,
) -> Result<Handler<'s>, ReportFault>
    ensures image { IfOk result (λ h. h.image.now ≡ said.now.image) }
    ensures handler { IfOk result (λ h. IsHandler h.image.now h.statement h.graph h.tree) }
    ensures prices { IfOk result (λ h. h.graph.profile ≡ profile.now) }
{
    let image = &said.image;
    let statement = read_statement(alloc, statement, &said.labels)?;
    let graph = build(alloc, image, &statement, profile)?;
    let tree = nest(alloc, &graph, &statement)?;
    Ok(Handler {
        image,
        statement,
        graph,
        tree,
    })
}

/// Makes a call on the handler of a source and a statement.
pub(crate) fn on_handler<C: HandlerCall>(
    alloc: Global,
    source: &[u8],
    statement: &[u8],
    call: C,
) -> Result<Answer, ReportFault> {
    let handler = handler_of(alloc, source, statement)?;
    let answer = call.on(alloc, &handler);
    drop(handler);
    answer
}

/// Makes a call on the nested countdown.
pub(crate) fn on_nested<C: HandlerCall>(alloc: Global, call: C) -> Result<Answer, ReportFault> {
    on_handler(alloc, SOURCE, STATEMENT, call)
}

fn is_nested_graph(graph: &Graph) -> bool {
    let costs = [1, 1, 2, 1, 4, 1, 1, 4, 10];
    graph.places().len() == 7
        && graph.edges().len() == 9
        && graph
            .edges()
            .iter()
            .zip(costs.iter())
            .all(|(edge, cost)| edge.cost == *cost)
}

fn built(alloc: Global, handler: &Stated) -> Answer {
    match build(alloc, &handler.image, &handler.statement, &Profile::one()) {
        Ok(graph) => Answer::of_value(is_nested_graph(&graph), graph),
        Err(BuildFault::Memory) => Answer::Refused,
        Err(_) => Answer::Wrong,
    }
}

// Whether the machine's one step takes the edge.
fn is_tight(tight: &mut Tight) -> bool {
    let stepped = tight.machine.step(tight.input);
    let numbers = [stepped.from, stepped.to, stepped.ticks];
    numbers == [0x800C, 0x8008, 4] && tight.file.pc() == 0x800C
}

fn tight(alloc: Global, handler: &Stated) -> Result<Answer, ReportFault> {
    let graph = build(alloc, &handler.image, &handler.statement, &Profile::one())?;
    let answer = if EDGE < graph.edges().len() {
        match tight_state(alloc, &handler.image, &handler.statement, &graph, EDGE) {
            Ok(mut tight) => Answer::of_value(is_tight(&mut tight), tight),
            Err(TightFault::Memory) => Answer::Refused,
            Err(TightFault::NotFree) => Answer::Wrong,
        }
    } else {
        Answer::Wrong
    };
    drop(graph);
    Ok(answer)
}

// The inner instance comes before the outer one.
fn is_nested_tree(tree: &LoopTree) -> bool {
    let headers = [0x8008, 0x8004];
    tree.instances().len() == 2
        && tree.order().len() == 8
        && tree.edges().len() == 9
        && tree
            .instances()
            .iter()
            .zip(headers.iter())
            .all(|(found, header)| found.stated.header == *header)
}

fn nest_of(alloc: Global, handler: &Stated, graph: &Graph) -> Answer {
    match nest(alloc, graph, &handler.statement) {
        Ok(tree) => Answer::of_value(is_nested_tree(&tree), tree),
        Err(NestFault::Memory) => Answer::Refused,
        Err(_) => Answer::Wrong,
    }
}

// The inner instance is inside of the outer one, which has all places between the first and the last.
fn is_nested_view(outermost: &Instances) -> bool {
    match outermost.items() {
        [outer] => match outer.inner() {
            [inner] => {
                let headers = [outer.header(), inner.header()];
                let sizes = [outer.places().len(), inner.places().len()];
                headers == [0x8004, 0x8008] && sizes == [5, 2]
            }
            _ => false,
        },
        _ => false,
    }
}

fn nested_of(alloc: Global, handler: &Stated, graph: &Graph) -> Result<Answer, ReportFault> {
    let tree = nest(alloc, graph, &handler.statement)?;
    let answer = match tree.nested(alloc, graph) {
        Ok(outermost) => Answer::of_value(is_nested_view(&outermost), outermost),
        Err(_) => Answer::Refused,
    };
    drop(tree);
    Ok(answer)
}

fn is_nested_walk(found: &Longest) -> bool {
    let distances = [0, 0, 0, 2, 16, 17, 40];
    let rows = found.potentials.places.items();
    found.bound == 50
        && found.walk.items().len() == 9
        && rows.len() == 7
        && rows
            .iter()
            .zip(distances.iter())
            .all(|(row, distance)| row.distance == *distance)
        && found.potentials.instances.items().len() == 2
}

fn longest_of(alloc: Global, handler: &Stated, graph: &Graph) -> Result<Answer, ReportFault> {
    let tree = nest(alloc, graph, &handler.statement)?;
    let answer = match longest(alloc, graph, &tree) {
        Ok(found) => Answer::of_value(is_nested_walk(&found), found),
        Err(WalkFault::Memory) => Answer::Refused,
        Err(_) => Answer::Wrong,
    };
    drop(tree);
    Ok(answer)
}

/// A graph's greatest walk by a handler's loops.
pub(crate) fn walk_of(
    alloc: Global,
    handler: &Stated,
    graph: &Graph,
) -> Result<Longest, ReportFault> {
    let tree = nest(alloc, graph, &handler.statement)?;
    let found = longest(alloc, graph, &tree);
    drop(tree);
    Ok(found?)
}

/// The flow graph of a handler.
pub(crate) fn graph_of(alloc: Global, handler: &Stated) -> Result<Graph, ReportFault> {
    Ok(build(alloc, &handler.image, &handler.statement, &Profile::one())?)
}

impl AnalysisCall {
    fn on_graph(self, alloc: Global, handler: &Stated) -> Result<Answer, ReportFault> {
        let graph = graph_of(alloc, handler)?;
        let answer = match self {
            AnalysisCall::Longest => longest_of(alloc, handler, &graph),
            AnalysisCall::Nested => nested_of(alloc, handler, &graph),
            _ => Ok(nest_of(alloc, handler, &graph)),
        };
        drop(graph);
        answer
    }
}

impl HandlerCall for AnalysisCall {
    fn on(self, alloc: Global, handler: &Stated) -> Result<Answer, ReportFault> {
        match self {
            AnalysisCall::Build => Ok(built(alloc, handler)),
            AnalysisCall::Tight => tight(alloc, handler),
            AnalysisCall::Nest | AnalysisCall::Nested | AnalysisCall::Longest => {
                self.on_graph(alloc, handler)
            }
        }
    }
}

// A step of so many ticks.
fn step(cost: u32) -> Item {
    Item::Step(Edge {
        from: Place::At(Calls::new(), 0x8000),
        label: Label::Do,
        to: Place::Exit,
        cost,
    })
}

fn cost_of(item: &Item) -> Option<u32> {
    match item {
        Item::Step(edge) => Some(edge.cost),
        Item::Repeat(_, _) => None,
    }
}

impl Puts for FoldedWalk {
    fn put_nth(&mut self, alloc: Global, n: u8) -> Answer {
        match self.push(alloc, step(u32::from(n))) {
            Ok(()) => Answer::Right,
            Err(WalkFault::Memory) => Answer::Refused,
            Err(_) => Answer::Wrong,
        }
    }

    fn has_first(&self, count: u8) -> bool {
        let mut wanted = 0u32;
        for item in self.items() {
            if cost_of(item) != Some(wanted) {
                return false;
            }
            wanted = wanted.saturating_add(1);
        }
        wanted == u32::from(count)
    }
}
