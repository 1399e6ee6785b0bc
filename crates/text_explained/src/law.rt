ghost use Rattle.std.specs.Prelude.{◌≡◌, ◌≢◌, ◌↔◌, ◌<◌, ◌≤◌, ◌^◌, ℕ, false, true, List, None, Some};
ghost use Rattle.std.specs.Prelude.{Option};
ghost use Rattle.std.specs.Prelude.{Contains, sum_by};
ghost use Rattle.bus_ticks.specs.declared.profile.Profile.{Profile};
ghost use Rattle.sources.specs.File.{File};
ghost use Rattle.sources.specs.Source.{IsSource};
ghost use Rattle.sources.specs.declared.read.Source.{Source};
ghost use Rattle.sources.specs.declared.read.SourceText.{SourceText};
ghost use Rattle.control_flow.specs.Graph.{IsBuildFault, IsFlowGraph};
ghost use Rattle.control_flow.specs.declared.edges.Edge.{Edge};
ghost use Rattle.control_flow.specs.declared.faults.BuildFault.{BuildFault};
ghost use Rattle.assembler.specs.declared.placed_line.PlacedLine.{PlacedLine};
ghost use Rattle.control_flow.specs.Flow.{Flow, IsWellFormed};
ghost use Rattle.image.specs.Image.{Words};
ghost use Rattle.loop_bounds.specs.Instance.{instance_of, is_member};
ghost use Rattle.loop_bounds.specs.Tree.{Tree};
ghost use Rattle.longest_walk.specs.Folded.{unfolded};
ghost use Rattle.longest_walk.specs.Longest.{IsWalkOf};
ghost use Rattle.longest_walk.specs.declared.folded.Item.{Item};
ghost use Rattle.text_explained.specs.Bursts.{AreFewest, IsBurstTime, with_bursts};
ghost use Rattle.longest_walk.specs.Starts.{AreWorstStarts};
ghost use Rattle.text_explained.specs.Sums.{is_in_loop};
ghost use Rattle.text_explained.specs.Starts.{IsLatestStart, latest_at};
ghost use Rattle.text_explained.specs.Folding.{kind_of};
ghost use Rattle.text_explained.specs.Table.{all_ticks, line_taken, listed_words, passes_of};
ghost use Rattle.text_explained.specs.Table.{ticks_in, ticks_of, told_at, words_of};
ghost use Rattle.text_explained.specs.Taken.{AreCostsAt, AreOnWords, AreListedOnce, cost_at, done_at};
ghost use Rattle.text_explained.specs.Taken.{is_reached};
ghost use Rattle.text_explained.specs.Taken.{pass_at, taken_at};
ghost use Rattle.text_explained.specs.declared.folding.FoldKind.{FoldKind};
ghost use Rattle.text_explained.specs.declared.walk_tally.Costs.{Costs};
ghost use Rattle.statement.specs.Stated.{Stated};
ghost use Rattle.statement.specs.declared.apart.ApartStretch.{ApartStretch};
ghost use Rattle.statement.specs.declared.stated.Loop.{Loop};
ghost use Rattle.control_flow.specs.declared.places.Place.{Place};

use asm_text::lines_are_spelled;
use assembler::sources_are_assembled;

/// States that of a walk of the graph that costs less than 2^64 ticks the numbers at an address are exact:
/// how often the walk leaves the address, and does the instruction there, the ticks of all that, the least
/// and the greatest cost of an edge on which it leaves it, and of any edge of the graph that does. It does
/// nothing.
pub fn numbers_are_of_the_walk()
    ensures { (flow : Flow) (tree : Tree) (cost : ℕ) (items : List Item) (a : ℕ)
        → IsWellFormed flow → IsWalkOf flow tree cost items → cost < 2 ^ 64
        → is_reached flow.places a ≡ true
        → (costs prices : Option Costs) × AreCostsAt a (unfolded items) costs
        × AreCostsAt a flow.edges prices
        × (taken_at flow (unfolded items) a
        ≡ Some (record {
          passes = sum_by (pass_at a) (unfolded items);
          done = sum_by (done_at a) (unfolded items);
          ticks = sum_by (cost_at a) (unfolded items);
          costs = costs;
          prices = prices;
        })) }
{}

/// States that the ticks of all rows are what the walk costs, if each place of the graph is at one word
/// of the lines, or of the image. It does nothing.
pub fn totals_are_the_bound()
    ensures { (flow : Flow) (tree : Tree) (cost : ℕ) (items : List Item) (words : Words) (text : SourceText)
        → IsWellFormed flow → IsWalkOf flow tree cost items → cost < 2 ^ 64
        → AreListedOnce flow.places (listed_words words text)
        → all_ticks (taken_at flow (unfolded items)) words text ≡ cost }
{}

/// States that each place of a graph that is not refused is at one word: of the lines of a source that was
/// read, each where it is placed, or of an image. It does nothing.
pub fn places_are_listed_once()
    ensures words { (words : Words) (stated : Stated) (profile : Profile) (flow : Flow)
        → IsFlowGraph words stated profile flow
        → ((f : BuildFault) → f ≢ BuildFault.Memory → IsBuildFault words stated profile f → ⊥)
        → AreOnWords words flow.places }
    ensures source { (file : File) (source : Source) (flow : Flow) → IsWellFormed flow
        → IsSource file source → AreOnWords source.image flow.places
        → AreListedOnce flow.places (listed_words source.image source.text) }
{
    lines_are_spelled();
    sources_are_assembled();
}

/// States that by the worst starts of a graph's places the greatest start at an address is when its word
/// begins at the latest: a walk from the entry that keeps the bounds of the loops comes there after so many
/// ticks, and none after more. Where no place is at the address, none comes there. It does nothing.
pub fn latest_starts_are_of_walks()
    ensures { (flow : Flow) (tree : Tree) (starts : List ℕ) (a : ℕ) → IsWellFormed flow
        → AreWorstStarts flow tree starts → IsLatestStart flow tree a (latest_at flow.places starts a) }
{}

/// States that a line's row has no ticks without passes: where the walk takes ticks at the words of a line,
/// it passes the word of which the row tells. It does nothing.
pub fn rows_with_ticks_have_passes()
    ensures { (flow : Flow) (walk : List Edge) (line : PlacedLine)
        → 0 < ticks_in (taken_at flow walk) line.at line.words
        → 0 < passes_of (taken_at flow walk (told_at (taken_at flow walk) line)) }
{}

/// States that rows that are folded have no ticks: a line's, and a word's. It does nothing.
pub fn folded_rows_have_no_ticks()
    ensures lines { (flow : Flow) (walk : List Edge) (line : PlacedLine) (kind : FoldKind)
        → kind_of (line_taken (taken_at flow walk) line) ≡ Some kind
        → ticks_of (line_taken (taken_at flow walk) line) ≡ 0 }
    ensures words { (flow : Flow) (walk : List Edge) (a : ℕ) (kind : FoldKind)
        → kind_of (taken_at flow walk a) ≡ Some kind → ticks_of (taken_at flow walk a) ≡ 0 }
{}

/// States which lines a table says nothing can ever reach: those at whose words the graph has no place. It
/// does nothing.
pub fn unreached_lines_have_no_place()
    ensures { (flow : Flow) (walk : List Edge) (line : PlacedLine)
        → (line_taken (taken_at flow walk) line ≡ None)
        ↔ ((a : ℕ) → Contains (words_of line) a → is_reached flow.places a ≡ false) }
{}

/// States that the time with the fewest bursts that are enough is the least that is the bound and a burst for
/// each stretch of so many ticks that is begun in it, and that there is no such time where no number is
/// enough. It does nothing.
pub fn burst_time_is_the_least()
    ensures some { (price bound every count : ℕ) → 0 < every → AreFewest price bound every (Some count)
        → IsBurstTime price bound every (with_bursts price bound count)
        × ((ticks : ℕ) → IsBurstTime price bound every ticks → with_bursts price bound count ≤ ticks) }
    ensures none { (price bound every : ℕ) → 0 < every → AreFewest price bound every None
        → (ticks : ℕ) → IsBurstTime price bound every ticks → ⊥ }
{}

/// States that the places at which a loop's ticks are counted are the members of its instances, in all
/// stays. It does nothing.
pub fn places_in_loops_are_members()
    ensures { (apart : List ApartStretch) (l : Loop) (p : Place) → (is_in_loop apart l p ≡ true)
        ↔ ((list : List ℕ) × (is_member (instance_of apart l list) p ≡ true)) }
{}
