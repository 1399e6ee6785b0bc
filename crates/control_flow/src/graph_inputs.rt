use bus_ticks::Profile;
use image::Image;
use statement::Statement;

/// What a graph is built from: the words, what is stated of them, and what they are priced by.
#[derive(Clone, Copy)]
pub struct GraphInputs<'a> {
    pub image: &'a Image,
    pub statement: &'a Statement,
    pub profile: &'a Profile,
}
