ghost use Rattle.std.specs.Prelude.{◌≡◌, ℕ, true, false, IfSome, IsNone};
ghost use Rattle.control_flow.specs.Graph.{IsStray, IsWriterAt};

use crate::actions::{action_of, is_writer};
use image::Image;
use statement::Statement;

// Whether the image has a word there that writes R15.
fn is_writer_at(image: &Image, address: u32) -> bool
    ensures yes { result ≡ true → IsWriterAt image.now address }
    ensures no { result ≡ false → IsWriterAt image.now address → ⊥ }
{
    match image.word_at(address) {
        Some(word) => is_writer(action_of(word).kind),
        None => false,
    }
}

/// An address for which a target is stated, and where the image has no word that writes R15.
pub(crate) fn stray_target(image: &Image, statement: &Statement) -> Option<u32>
    ensures stray { IfSome result (IsStray image.now statement.now) }
    ensures none { IsNone result → (address : ℕ) → IsStray image.now statement.now address → ⊥ }
{
    for address in statement.targets().keys() {
        if !is_writer_at(image, *address) {
            return Some(*address);
        }
    }
    None
}
