ghost use Rattle.std.specs.Prelude.{◌≡◌};

use crate::memory::{DMA_AND_CONTROL, TRANSLATOR};
use crate::pages::PHYSICAL_PAGES;

/// States that there are 128 physical pages, and where stores to the DMA and control range and to the
/// translator begin: at 3600000 and 3800000. It does nothing.
pub fn controller_map()
    ensures pages { PHYSICAL_PAGES ≡ 128 }
    ensures control { DMA_AND_CONTROL ≡ 0x3600000 }
    ensures translator { TRANSLATOR ≡ 0x3800000 }
{}
