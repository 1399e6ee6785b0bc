ghost use Rattle.std.specs.Prelude.{◌≡◌, ◌<◌, ℕ, IfOk, length, slice_index};
ghost use Rattle.numbered_walks.specs.Tables.{HasRoom, IsPlaceWritten, IsRoundWritten, arrival_of};
ghost use Rattle.numbered_walks.specs.Tables.{distance_of, is_header_in, round_of};

use crate::span::Span;
use std::alloc::{AllocError, Global};

/// Potentials by number: distances, and by the numbers of headers arrivals and rounds.
#[derive(Drop)]
pub struct Tables {
    /// The greatest cost of a complete walk, in ticks, below 2^63.
    pub bound: u64,
    /// The greatest cost, in ticks, from the last header that was entered and is not left; 0 at a header.
    pub distances: Vec<u64>,
    /// At a header the greatest cost, in ticks, of reaching it from outside; else 0.
    pub arrivals: Vec<u64>,
    /// At a header the greatest cost of a round, in ticks; 0 with no back edge or a bound of 0.
    pub rounds: Vec<u64>,
}

/// The distance of a number.
pub(crate) fn distance_of(tables: &Tables, number: usize) -> u64
    ensures { result ≡ distance_of tables.now number }
{
    tables.distances.get(number).copied().unwrap_or(0)
}

/// The arrival of an instance.
pub(crate) fn arrival_of(tables: &Tables, span: &Span) -> u64
    ensures { result ≡ arrival_of tables.now span.now }
{
    tables.arrivals.get(span.header).copied().unwrap_or(0)
}

/// The round of an instance.
pub(crate) fn round_of(tables: &Tables, span: &Span) -> u64
    ensures { result ≡ round_of tables.now span.now }
{
    tables.rounds.get(span.header).copied().unwrap_or(0)
}

/// Tables of zeros.
pub(crate) fn empty_tables(alloc: Global, size: usize) -> Result<Tables, AllocError>
    ensures room { IfOk result (HasRoom size) }
    ensures zeros { IfOk result
        (λ c. (p : ℕ) → slice_index c.distances.items p ≡ 0 × slice_index c.rounds.items p ≡ 0) }
{
    Ok(Tables {
        bound: 0,
        distances: vec![in alloc; 0u64; size]?,
        arrivals: vec![in alloc; 0u64; size]?,
        rounds: vec![in alloc; 0u64; size]?,
    })
}

/// Writes what was found for a number: an arrival at a header, else a distance.
pub(crate) fn write_place(
    tables: &mut Tables,
    spans: &[Span],
    header: bool,
    number: usize,
    value: u64,
)
    requires header_is { header ≡ is_header_in spans.now number }
    requires room { (number < length tables.old.distances.items)
        × (number < length tables.old.arrivals.items) }
    ensures written { IsPlaceWritten spans.now number value tables.old tables.new }
    ensures distances { length tables.new.distances.items ≡ length tables.old.distances.items }
    ensures arrivals { length tables.new.arrivals.items ≡ length tables.old.arrivals.items }
    ensures rounds { length tables.new.rounds.items ≡ length tables.old.rounds.items }
{
    if header {
        tables.arrivals[number] = value;
    } else {
        tables.distances[number] = value;
    }
}

/// Writes the round of the instance whose header has the number.
pub(crate) fn write_round(tables: &mut Tables, header: usize, value: u64)
    requires room { header < length tables.old.rounds.items }
    ensures written { IsRoundWritten header value tables.old tables.new }
    ensures distances { length tables.new.distances.items ≡ length tables.old.distances.items }
    ensures arrivals { length tables.new.arrivals.items ≡ length tables.old.arrivals.items }
    ensures rounds { length tables.new.rounds.items ≡ length tables.old.rounds.items }
{
    tables.rounds[header] = value;
}
