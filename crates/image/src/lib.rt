//! Images: the words of a program by their addresses, and the labels of its source.
#![tactic(auto)]

mod gap_buffer;
mod image;
mod labels;
mod law;
mod places;
mod reading;
mod writing;

pub use image::{Image, ImageFault, PAGE_BYTES};
pub use labels::{LabelFault, Labels};
pub use law::{
    image_limits, images_are_read, other_faults_begin_no_image, trailing_bytes_follow_an_image,
    truncated_begins_an_image,
};
pub use places::{
    LARGEST_RAM_END, MOST_SEGMENTS, MOST_WORDS, is_past_ram, lies_in_memory, may_hold,
};
pub use reading::{ReadFault, is_image, read_image};
pub use writing::write_image;
