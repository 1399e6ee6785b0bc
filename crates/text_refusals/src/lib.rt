//! What the one line of a refusal has no room for: a cycle that no loop bounds, an edge that enters a loop
//! elsewhere than at its header, how a place without edges is reached, and where these are in the source; and
//! which lines of a statement, a machine file, a cycle profile or a file of facts are wrong.
#![tactic(auto)]

mod asked;
mod asked_file;
mod asked_given;
mod asked_labels;
mod asked_profile;
mod course;
mod crossings;
mod cycles;
mod extents;
mod file_course;
mod file_rows;
mod file_texts;
mod given_spots;
mod law;
mod machine_spots;
mod members;
mod mends;
mod mid_entries;
mod nearest;
mod nested;
mod no_toml;
mod outline;
mod outline_tokens;
mod profile_spots;
mod reason_texts;
mod reasons;
mod report;
mod search;
mod shared_headers;
mod source_faults;
mod statements;
mod strangers;
mod stretch_rows;
mod word_lines;
mod word_rows;

pub use asked_labels::statement_reason;
pub use crossings::{Crossing, loops_that_cross};
pub use cycles::unbounded_cycle;
pub use extents::{CycleExtent, extent_of};
pub use file_texts::{given_text, machine_text, profile_text};
pub use law::{file_rows_show_faults, most_lines, plain_lines_are_seen, rows_show_faults};
pub use mid_entries::{MidEntry, mid_entry};
pub use nested::{DeepPlace, deep_place};
pub use reason_texts::{
    crossing_text, cycle_text, deep_text, entry_text, place_text, shared_text, word_text,
};
pub use reasons::{graph_reason, loops_reason};
pub use shared_headers::shared_header;
pub use source_faults::{FaultyLine, faulty_lines, faulty_text};
pub use statements::statement_text;
pub use word_lines::{WordLines, words_of};
