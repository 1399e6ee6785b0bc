ghost use Rattle.std.specs.Prelude.{◌≡◌, ◌≢◌, ◌<◌, ◌≤◌, ◌++◌, ℕ, List, length, map, codes, All};
ghost use Rattle.std.specs.Prelude.{MatchOption};
ghost use Rattle.std.specs.List.{join_with_byte};
ghost use Rattle.std.specs.Fmt.{decimal};
ghost use Rattle.walks.specs.declared.limits.TheConstants.{COST_LIMIT};
ghost use Rattle.certificate.specs.Words.{InstanceFits, IsProfile, LineFits, PlaceFits, StepFits, WalkFits};
ghost use Rattle.certificate.specs.Words.{instance_words, line_words, place_words, profile_words, step_words};
ghost use Rattle.certificate.specs.Words.{title_words, walk_words};
ghost use Rattle.bus_ticks.specs.Numbers.{profile_one};
ghost use Rattle.certificate.specs.declared.line.Line.{Line};
ghost use Rattle.certificate.specs.declared.line.Version.{Version};
ghost use Rattle.certificate.specs.declared.line.WalkLine.{WalkLine};
ghost use Rattle.certificate.specs.declared.walk.StepLine.{StepLine};
ghost use Rattle.longest_walk.specs.declared.rows.PlaceRow.{PlaceRow};
ghost use Rattle.longest_walk.specs.declared.rows.InstanceRow.{InstanceRow};

use crate::fields::{address_first, calls_at, label_first, number_first, to_first};
use crate::line::{Line, Version, WalkLine};
use crate::numbers::decimal_at;
use crate::splitting::{after_front, cut_at};
use crate::walk::StepLine;
use bus_ticks::Profile;
use longest_walk::{InstanceRow, PlaceRow};
use statement::MOST_ROUNDS;

// How often the body of a repeat is taken at most: as often as a loop turns back.
const MOST_TURNS: u64 = MOST_ROUNDS as u64;

fn title_at(words: &[u8]) -> Option<Version>
    ensures { MatchOption result ((v : Version) → words.now ≡ title_words v → ⊥)
        (λ v. words.now ≡ title_words v) }
{
    match words {
        b"arcwcet certificate 1" => Some(Version::One),
        b"arcwcet certificate 2" => Some(Version::Two),
        _ => None,
    }
}

fn bound_at(words: &[u8]) -> Option<u64>
    ensures { MatchOption result ((n : ℕ) → n < COST_LIMIT → words.now ≡ codes "bound " ++ decimal n → ⊥)
        (λ n. (n < COST_LIMIT) × (words.now ≡ codes "bound " ++ decimal n)) }
{
    decimal_at(after_front(words, b"bound ")?)
}

fn repeat_at(words: &[u8]) -> Option<u32>
    ensures { MatchOption result
        ((k : ℕ) → 0 < k → k ≤ MOST_TURNS → words.now ≡ codes "repeat " ++ decimal k → ⊥)
        (λ k. (0 < k) × (k ≤ MOST_TURNS) × (words.now ≡ codes "repeat " ++ decimal k)) }
{
    let count = decimal_at(after_front(words, b"repeat ")?)?;
    if count == 0 {
        return None;
    }
    if count > MOST_TURNS {
        return None;
    }
    Some(count as u32)
}

fn step_at(words: &[u8]) -> Option<StepLine>
    ensures { MatchOption result ((s : StepLine) → StepFits s → words.now ≡ step_words s → ⊥)
        (λ s. StepFits s × (words.now ≡ step_words s)) }
{
    let rest = after_front(words, b"step ")?;
    let (address, rest) = address_first(rest)?;
    let (label, rest) = label_first(rest)?;
    let (to, rest) = to_first(rest)?;
    let cost = decimal_at(rest)?;
    if cost == 0 {
        return None;
    }
    Some(StepLine {
        address,
        label,
        to,
        cost,
    })
}

fn place_at(words: &[u8]) -> Option<PlaceRow>
    ensures { MatchOption result ((r : PlaceRow) → PlaceFits r → words.now ≡ place_words r → ⊥)
        (λ r. PlaceFits r × (words.now ≡ place_words r)) }
{
    let rest = after_front(words, b"place ")?;
    let (word, rest) = cut_at(b' ', rest)?;
    let list = calls_at(word)?;
    let (address, rest) = address_first(rest)?;
    let distance = decimal_at(rest)?;
    Some(PlaceRow {
        list,
        address,
        distance,
    })
}

fn instance_at(words: &[u8]) -> Option<InstanceRow>
    ensures { MatchOption result ((r : InstanceRow) → InstanceFits r → words.now ≡ instance_words r → ⊥)
        (λ r. InstanceFits r × (words.now ≡ instance_words r)) }
{
    let rest = after_front(words, b"instance ")?;
    let (word, rest) = cut_at(b' ', rest)?;
    let list = calls_at(word)?;
    let (header, rest) = address_first(rest)?;
    let (arrival, rest) = number_first(rest)?;
    let round = decimal_at(rest)?;
    Some(InstanceRow {
        list,
        header,
        arrival,
        round,
    })
}

fn price_at(word: &[u8]) -> Option<u32>
    ensures { MatchOption result ((n : ℕ) → n < 256 → word.now ≡ decimal n → ⊥)
        (λ n. (n < 256) × (word.now ≡ decimal n)) }
{
    let number = decimal_at(word)?;
    if number >= 256 {
        return None;
    }
    Some(number as u32)
}

// The fifteen numbers below 256 that the words spell, parted by blanks.
fn prices_at(words: &[u8]) -> Option<[u32; 15]>
    ensures { MatchOption result
        ((ns : List ℕ) → length ns ≡ 15 → All (λ n. n < 256) ns
        → words.now ≡ join_with_byte 32 (map decimal ns) → ⊥)
        (λ ns. (length ns ≡ 15) × All (λ n. n < 256) ns × (words.now ≡ join_with_byte 32 (map decimal ns))) }
{
    let mut prices = [0; 15];
    let mut rest = words;
    for i in 0..14 {
        let (word, after) = cut_at(b' ', rest)?;
        prices[i] = price_at(word)?;
        rest = after;
    }
    prices[14] = price_at(rest)?;
    Some(prices)
}

fn profile_at(words: &[u8]) -> Option<[u32; 15]>
    ensures { MatchOption result
        ((ns : List ℕ) → IsProfile ns → ns ≢ profile_one → words.now ≡ profile_words ns → ⊥)
        (λ ns. IsProfile ns × (ns ≢ profile_one) × (words.now ≡ profile_words ns)) }
{
    let prices = prices_at(after_front(words, b"profile ")?)?;
    if prices == Profile::one().numbers() {
        return None;
    }
    match Profile::new(prices) {
        Ok(_) => Some(prices),
        Err(_) => None,
    }
}

// What the words of a line of a walk say.
fn walk_line_at(words: &[u8]) -> Option<WalkLine>
    ensures { MatchOption result ((w : WalkLine) → WalkFits w → words.now ≡ walk_words w → ⊥)
        (λ w. WalkFits w × (words.now ≡ walk_words w)) }
{
    if let Some(step) = step_at(words) {
        return Some(WalkLine::Step(step));
    }
    if let Some(count) = repeat_at(words) {
        return Some(WalkLine::Repeat(count));
    }
    if words == b"end".as_slice() {
        return Some(WalkLine::End);
    }
    None
}

// What the words of a row say.
fn row_at(words: &[u8]) -> Option<Line>
    ensures { MatchOption result
        (((r : PlaceRow) → PlaceFits r → words.now ≡ place_words r → ⊥)
        × ((r : InstanceRow) → InstanceFits r → words.now ≡ instance_words r → ⊥))
        (λ l. LineFits l × (words.now ≡ line_words l)) }
{
    if let Some(row) = place_at(words) {
        return Some(Line::Place(row));
    }
    if let Some(row) = instance_at(words) {
        return Some(Line::Instance(row));
    }
    None
}

// What the words of a line before the walk say.
fn head_at(words: &[u8]) -> Option<Line>
    ensures { MatchOption result
        (((v : Version) → words.now ≡ title_words v → ⊥)
        × ((ns : List ℕ) → IsProfile ns → ns ≢ profile_one → words.now ≡ profile_words ns → ⊥)
        × ((n : ℕ) → n < COST_LIMIT → words.now ≡ codes "bound " ++ decimal n → ⊥))
        (λ l. LineFits l × (words.now ≡ line_words l)) }
{
    if let Some(version) = title_at(words) {
        return Some(Line::Title(version));
    }
    if let Some(bound) = bound_at(words) {
        return Some(Line::Bound(bound));
    }
    if let Some(numbers) = profile_at(words) {
        return Some(Line::Profile(numbers));
    }
    None
}

/// What the words of a line say; `None` where no line has these words.
pub(crate) fn line_of(words: &[u8]) -> Option<Line>
    ensures { MatchOption result ((l : Line) → LineFits l → words.now ≡ line_words l → ⊥)
        (λ l. LineFits l × (words.now ≡ line_words l)) }
{
    if let Some(line) = walk_line_at(words) {
        return Some(Line::Walk(line));
    }
    if let Some(row) = row_at(words) {
        return Some(row);
    }
    match words {
        b"close" => Some(Line::Close),
        b"stop" => Some(Line::Stop),
        _ => head_at(words),
    }
}
