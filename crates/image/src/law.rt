ghost use Rattle.std.specs.Prelude.{◌≡◌, ◌≢◌, ◌<◌, ◌++◌, ℕ, List, Ok, Err, All};
ghost use Rattle.image.specs.Image.{Words};
ghost use Rattle.image.specs.ImageBytes.{Segment, image_bytes, image_read};
ghost use Rattle.image.specs.Spelling.{AreImage, BeginImage, PassImage, Spell};

use crate::image::PAGE_BYTES;
use crate::places::{LARGEST_RAM_END, MOST_SEGMENTS, MOST_WORDS};
use crate::reading::ReadFault;

/// States that [`read_image`](crate::read_image) takes the bytes of every list of segments that
/// spell an image, in whatever order, and returns that image; it does nothing.
pub fn images_are_read()
    ensures { (segments : List Segment) → (words : Words) → Spell segments words
        → image_read (image_bytes segments) ≡ Ok words }
{}

/// States that bytes are `Truncated` exactly where they end too early, which is where some more after them
/// would make them an image's. It does nothing.
pub fn truncated_begins_an_image()
    ensures begins { (bytes : List ℕ) → All (λ b. b < 256) bytes → image_read bytes ≡ Err ReadFault.Truncated
        → BeginImage bytes }
    ensures truncated { (bytes : List ℕ) → BeginImage bytes → image_read bytes ≡ Err ReadFault.Truncated }
{}

/// States that bytes with any other fault do not begin an image's, whatever followed them. It does
/// nothing.
pub fn other_faults_begin_no_image()
    ensures { (bytes more : List ℕ) → (fault : ReadFault) → image_read bytes ≡ Err fault
        → fault ≢ ReadFault.Truncated → AreImage (bytes ++ more) → ⊥ }
{}

/// States that bytes are `TrailingBytes` exactly where they go on after an image's. It does nothing.
pub fn trailing_bytes_follow_an_image()
    ensures follow { (bytes : List ℕ) → All (λ b. b < 256) bytes
        → image_read bytes ≡ Err ReadFault.TrailingBytes → PassImage bytes }
    ensures trailing { (bytes : List ℕ) → PassImage bytes → image_read bytes ≡ Err ReadFault.TrailingBytes }
{}

/// States how large an image may be: 65536 words (256 KB) in 16 segments; and that the largest pages have
/// 32 KB, and with them RAM ends at 2400000. It does nothing.
pub fn image_limits()
    ensures words { MOST_WORDS ≡ 65536 }
    ensures segments { MOST_SEGMENTS ≡ 16 }
    ensures page { PAGE_BYTES ≡ 32768 }
    ensures ram { LARGEST_RAM_END ≡ 0x2400000 }
{}
