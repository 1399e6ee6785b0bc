ghost use Rattle.std.specs.Prelude.{◌≡◌, ◌+◌, ◌<◌, length, slice_index};
ghost use Rattle.walk_counts.specs.Spans.{header_at};
ghost use Rattle.cert_check.specs.Walking.{Arrives, broken_by, capped_cost, gained, turns_after};

use numbered_walks::{NumberedEdge, Span};
use walk_counts::is_in;

/// The costs of walks, in ticks, and their numbers of back edges are capped here, at 2^64: above each bound.
pub const COST_CAP: u128 = 1 << 64;

/// How far a walk has been followed from the entry, and what is known of it.
#[derive(Drop)]
pub(crate) struct Walker {
    /// The number of the place where it is.
    pub(crate) number: usize,
    /// What it costs, in ticks, capped at 2^64.
    pub(crate) cost: u128,
    /// By the numbers of headers, the back edges of its stay in each instance that it is in, capped at
    /// 2^64. What is kept for other instances means nothing.
    pub(crate) turns: Vec<u128>,
    /// The first instance in which some stay took more back edges than the bound.
    pub(crate) over: Option<Span>,
}

/// Where a repeat begins.
#[derive(Clone, Copy)]
pub(crate) struct Round {
    /// The instance whose rounds it is, which begins at the walker's number.
    pub(crate) span: Span,
    /// The walker's cost.
    pub(crate) cost: u128,
    /// The back edges of its stay in the instance.
    pub(crate) turns: u128,
}

fn capped_cost_sum(sum: u128, more: u32) -> u128
    ensures { result ≡ capped_cost (sum + more) }
{
    if sum < COST_CAP {
        (sum + u128::from(more)).min(COST_CAP)
    } else {
        COST_CAP
    }
}

// What was gained once, so many times.
fn gained(before: u128, after: u128, count: u32) -> u128
    ensures { result ≡ gained before after count }
{
    let start = before.min(COST_CAP);
    let once = after.min(COST_CAP).saturating_sub(before);
    (start + u128::from(count) * once).min(COST_CAP)
}

// The instance that begins at the number, if these are more back edges than its bound.
fn broken_by(headers: &[Option<Span>], number: usize, turns: u128) -> Option<Span>
    requires { number < length headers.now }
    ensures { result ≡ broken_by (header_at headers.now number) turns }
{
    match headers[number] {
        Some(span) => {
            if u128::from(span.bound) < turns {
                Some(span)
            } else {
                None
            }
        }
        None => None,
    }
}

impl Walker {
    // The back edges of its stay at the end of the edge, once that is followed.
    fn turns_after(&self, headers: &[Option<Span>], edge: &NumberedEdge) -> u128
        requires known { edge.now.to < length headers.now }
        requires room { edge.now.to < length self.now.turns.items }
        ensures { result
            ≡ turns_after (header_at headers.now edge.now.to) edge.now.from
            (slice_index self.now.turns.items edge.now.to) }
    {
        match headers[edge.to] {
            Some(span) => {
                if is_in(&span, edge.from) {
                    capped_cost_sum(self.turns[edge.to], 1)
                } else {
                    0
                }
            }
            None => 0,
        }
    }

    #[inline(always)]
    fn arrive(&mut self, headers: &[Option<Span>], number: usize, cost: u128, turns: u128)
        requires known { number < length headers.now }
        requires room { number < length self.old.turns.items }
        ensures { Arrives headers.now number cost turns self.old self.new }
    {
        self.number = number;
        self.cost = cost;
        self.turns[number] = turns;
        if self.over.is_none() {
            self.over = broken_by(headers, number, turns);
        }
    }

    /// Follows an edge from where it is.
    pub(crate) fn take(&mut self, headers: &[Option<Span>], edge: &NumberedEdge)
        requires known { edge.now.to < length headers.now }
        requires room { edge.now.to < length self.old.turns.items }
        ensures { Arrives headers.now edge.now.to (capped_cost (self.old.cost + edge.now.cost))
            (turns_after (header_at headers.now edge.now.to) edge.now.from
            (slice_index self.old.turns.items edge.now.to)) self.old self.new }
    {
        let cost = capped_cost_sum(self.cost, edge.cost);
        let turns = self.turns_after(headers, edge);
        self.arrive(headers, edge.to, cost, turns);
    }

    /// Takes the round that was followed so many times in place of once.
    pub(crate) fn repeat(&mut self, headers: &[Option<Span>], round: &Round, count: u32)
        requires known { self.old.number < length headers.now }
        requires room { self.old.number < length self.old.turns.items }
        ensures { Arrives headers.now self.old.number (gained round.now.cost self.old.cost count)
            (gained round.now.turns
            (slice_index self.old.turns.items self.old.number) count) self.old self.new }
    {
        let number = self.number;
        let cost = gained(round.cost, self.cost, count);
        let turns = gained(round.turns, self.turns[number], count);
        self.arrive(headers, number, cost, turns);
    }
}
