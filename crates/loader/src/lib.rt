//! Images in memory: their words are put where a machine's loads read them, and a plan says which pages hold
//! them. What an image is, is re-exported as it is.
#![tactic(auto)]

mod law;
mod loading;
mod plan;

pub use image::{
    Image, ImageFault, LARGEST_RAM_END, LabelFault, Labels, MOST_SEGMENTS, MOST_WORDS, PAGE_BYTES,
    ReadFault, image_limits, images_are_read, is_image, is_past_ram, lies_in_memory, may_hold,
    other_faults_begin_no_image, read_image, trailing_bytes_follow_an_image,
    truncated_begins_an_image, write_image,
};
pub use law::{largest_ram, planned_words_are_loaded};
pub use loading::{LoadFault, load, put_words};
pub use plan::{PagePlan, PlacedPage, page_plan};
