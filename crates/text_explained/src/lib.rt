//! A bound explained: where the ticks of a greatest walk go, and what is taken for granted, by the line of a
//! source or the word of an image.
#![tactic(auto)]

mod assumptions;
mod bursts;
mod caveats;
mod cost_columns;
mod cost_figures;
mod counted_walk;
mod dearest;
mod doing;
mod done_returns;
mod folding;
mod idle;
mod idle_stretches;
mod image_rows;
mod law;
mod leaving;
mod links;
mod listed_rows;
mod loop_table;
mod named_words;
mod part_groups;
mod part_sums;
mod pricing;
mod printed_rows;
mod routines;
mod rules;
mod sections;
mod shown_texts;
mod starts;
mod sums;
mod table;
mod table_rows;
mod walk_tally;

pub use bursts::{Bursts, PricedBound, burst_lines};
pub use cost_columns::{put_time, share_text};
pub use cost_figures::RowFigures;
pub use counted_walk::CountedWalk;
pub use done_returns::done_text;
pub use idle::idle_entries;
pub use law::{
    burst_time_is_the_least, folded_rows_have_no_ticks, latest_starts_are_of_walks,
    numbers_are_of_the_walk, places_are_listed_once, places_in_loops_are_members,
    rows_with_ticks_have_passes, totals_are_the_bound, unreached_lines_have_no_place,
};
pub use links::{Overwrite, lost_links};
pub use listed_rows::walk_rows;
pub use named_words::named_rows;
pub use pricing::{Granted, Pricing, priced, put_pricing};
pub use printed_rows::put_each;
pub use routines::routine_sums;
pub use rules::rule_lines;
pub use sections::assumed_text;
pub use starts::WorstStarts;
pub use sums::loop_sums;
pub use table::{RowForm, cost_table};
pub use table_rows::{RowLine, TableRow};
pub use walk_tally::{Costs, Taken, WalkTally};
