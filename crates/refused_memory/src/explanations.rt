ghost use Rattle.std.specs.Prelude.{◌≡◌};
ghost use Rattle.loop_bounds.specs.Tree.{IsTree};

use crate::analysis::{accepted_on, image_of};
use crate::trial::Answer;
use arcwcet::ReportFault;
use bus_ticks::Profile;
use flow_graph::Graph;
use longest_walk::{Longest, longest};
use loop_bounds::Handler;
use samples::nested_countdown::{SOURCE, STATEMENT};
use sources::{Source, SourceFile};
use std::alloc::Global;
use text_explained::{CountedWalk, RowForm, WorstStarts, cost_table};
use walk_counts::edge_counts;

/// The bound of the nested countdown, by the lines of its source.
const NESTED_LINES: &[u8] = b"passes each ticks  share latest priced as address line  text
     1    1     1   2.0%      0              8000    1  start MOV R1,#2
     2    1     2   4.0%     22              8004    2  outer MOV R0,#3
     6    2    12  24.0%     35              8008    3  inner SUBS R0,R0,#1
     6  1-4    18  36.0%     37              800C    4  turn BNE inner
     2    1     2   4.0%     38              8010    5   SUBS R1,R1,#1
     2  1-4     5  10.0%     39              8014    6  back BNE outer
     1   10    10  20.0%     40     > any    8018    7   SUBS PC,R14,#4
      total    50 100.0%
bound 50 ticks, 6.250 microseconds at 8 MHz
";

// The same by its words.
const NESTED_WORDS: &[u8] = b"passes each ticks  share latest priced as address  text
     1    1     1   2.0%      0              8000  MOV R1,#2
     2    1     2   4.0%     22              8004  MOV R0,#3
     6    2    12  24.0%     35              8008  SUBS R0,R0,#1
     6  1-4    18  36.0%     37              800C  BNE &8008
     2    1     2   4.0%     38              8010  SUBS R1,R1,#1
     2  1-4     5  10.0%     39              8014  BNE &8004
     1   10    10  20.0%     40     > any    8018  SUBS R15,R14,#4
      total    50 100.0%
bound 50 ticks, 6.250 microseconds at 8 MHz
";

// The worst starts of its places, in ticks.
const NESTED_STARTS: [u64; 7] = [0, 22, 35, 37, 38, 39, 40];

// How often its greatest walk takes each edge: of a branch first the one that goes on.
const NESTED_COUNTS: [u64; 9] = [1, 2, 6, 2, 4, 2, 1, 1, 1];

/// A call that explains the bound of the nested countdown, or counts the edges of its walk. None changes a
/// value.
#[derive(Clone, Copy)]
pub(crate) enum ExplainedCall {
    Lines,
    Words,
    Counts,
}

fn table(
    alloc: Global,
    source: &Source<'_>,
    walk: CountedWalk<'_, '_>,
    starts: WorstStarts<'_>,
    expected: &'static [u8],
) -> Answer
    requires { walk.handler.now.image.now ≡ source.now.image }
{
    let form = RowForm {
        all: false,
        top: None,
        width: 80,
    };
    Answer::of_text(cost_table(alloc, source, walk, starts, form), expected)
}

fn counted(alloc: Global, graph: &Graph, found: &Longest) -> Answer {
    match edge_counts(alloc, graph, &found.walk) {
        Ok(counts) => Answer::of(counts.as_slice() == NESTED_COUNTS.as_slice()),
        Err(_) => Answer::Refused,
    }
}

impl ExplainedCall {
    fn on_handler(
        self,
        alloc: Global,
        source: &Source<'_>,
        handler: &Handler<'_>,
    ) -> Result<Answer, ReportFault>
        requires image { handler.now.image.now ≡ source.now.image }
        requires tree { IsTree handler.now.graph handler.now.tree }
    {
        let found = longest(alloc, &handler.graph, &handler.tree)?;
        let latest = NESTED_STARTS;
        let counts = edge_counts(alloc, &handler.graph, &found.walk)?;
        let walk = CountedWalk {
            handler,
            longest: &found,
            counts: &counts,
        };
        let starts = WorstStarts {
            latest: latest.as_slice(),
            first: None,
        };
        match self {
            ExplainedCall::Lines => Ok(table(alloc, source, walk, starts, NESTED_LINES)),
            ExplainedCall::Words => Ok(table(alloc, source, walk, starts, NESTED_WORDS)),
            ExplainedCall::Counts => Ok(counted(alloc, &handler.graph, &found)),
        }
    }

    fn on(self, alloc: Global, source: &Source<'_>) -> Result<Answer, ReportFault> {
        let handler = accepted_on(alloc, source, STATEMENT, &Profile::one())?;
        let answer = self.on_handler(alloc, source, &handler);
        drop(handler);
        answer
    }

    /// Makes the call, and answers what it did.
    pub(crate) fn made(self, alloc: Global) -> Result<Answer, ReportFault> {
        let source = self.source(alloc)?;
        let answer = self.on(alloc, &source);
        drop(source);
        answer
    }

    // The source that the call explains by.
    fn source(self, alloc: Global) -> Result<Source<'static>, ReportFault> {
        let source = Source::read(alloc, SourceFile::plain(SOURCE))?;
        match self {
            ExplainedCall::Words => Ok(image_of(source)),
            ExplainedCall::Lines | ExplainedCall::Counts => Ok(source),
        }
    }
}
