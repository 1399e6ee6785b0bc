ghost use Rattle.handlers.specs.Meeting.{IsFirstShared};

use image::Image;

/// The least address at which both images have a word.
pub fn first_shared(image: &Image, other: &Image) -> Option<u32>
    ensures { IsFirstShared image.now other.now result }
{
    image.whole();
    other.whole();
    let mut here = 0;
    let mut there = 0;
    while let Some(address) = image.address(here) {
        let Some(other_address) = other.address(there) else {
            return None;
        };
        if address == other_address {
            return Some(address);
        }
        if address < other_address {
            here += 1;
        } else {
            there += 1;
        }
    }
    None
}
