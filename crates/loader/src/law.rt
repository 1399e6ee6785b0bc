ghost use Rattle.std.specs.Prelude.{◌≡◌, ◌≢◌, ◌<◌, ◌↔◌, ℕ, false, List, All, IsSome};
ghost use Rattle.std.specs.List.{Contains};
ghost use Rattle.image.specs.Image.{AreOf, IsFitted, Words, word_of};
ghost use Rattle.image.specs.Inside.{AreWhole};
ghost use Rattle.loader.specs.Loading.{HasWord, lacks_page, loaded};
ghost use Rattle.loader.specs.PagePlan.{IsPagePlan};
ghost use Rattle.loader.specs.Planned.{IsBeside, IsMapped};
ghost use Rattle.loader.specs.declared.plan.PlacedPage.{PlacedPage};
ghost use Rattle.memc.specs.Memory.{Memory};
ghost use Rattle.memc.specs.declared.pages.TheConstants.{PHYSICAL_PAGES};

use crate::plan::LOGICAL_PAGES;
use image::{LARGEST_RAM_END, PAGE_BYTES};

/// States that the largest pages have 32 KB, and that with them there are 1024 logical pages and RAM ends at
/// 2400000. It does nothing.
pub fn largest_ram()
    ensures page { PAGE_BYTES ≡ 32768 }
    ensures logical { LOGICAL_PAGES ≡ 1024 }
    ensures ram { LARGEST_RAM_END ≡ 0x2400000 }
{}

/// States what privileged loads return of words that are put into memory whose logical pages lie as an
/// image's plan says: each word of the image that is put, in whatever order, unless it is past RAM, from
/// 2400000 to 2FFFFFF; and after that also each word that is put on the plan's spare page, by its own
/// address, or in ROM at another address. The pages stay where they lie, and words of the image are refused
/// only where one is past RAM. It does nothing.
pub fn planned_words_are_loaded()
    ensures mapped { (pages : List PlacedPage) → (m : Memory) → (words : Words) → IsMapped pages m
        → IsMapped pages (loaded words m) }
    ensures image { (image words : Words) → (pages : List PlacedPage) → (spare : ℕ) → (m : Memory)
        → (a w : ℕ) → AreWhole image → IsPagePlan image pages spare → IsMapped pages m
        → AreOf image words → Contains words (a, w) → IsFitted a → HasWord (loaded words m) a w }
    ensures fits { (image words : Words) → (pages : List PlacedPage) → (spare : ℕ) → (m : Memory)
        → AreWhole image → IsPagePlan image pages spare → IsMapped pages m → AreOf image words
        → (lacks_page m words ≡ false) ↔ All (λ e. IsFitted e.0) words }
    ensures stays { (image beside : Words) → (pages : List PlacedPage) → (spare : ℕ) → (m : Memory)
        → (a w : ℕ) → AreWhole image → IsPagePlan image pages spare → IsMapped pages m
        → IsSome (word_of image a) → HasWord m a w
        → All (λ e. IsBeside spare e.0 × (e.0 ≢ a)) beside → HasWord (loaded beside m) a w }
    ensures beside { (beside : Words) → (pages : List PlacedPage) → (spare : ℕ) → (m : Memory) → (a w : ℕ)
        → IsMapped pages m → spare < PHYSICAL_PAGES
        → All (λ e. IsBeside spare e.0 × (e.0 ≡ a → e.1 ≡ w)) beside
        → Contains beside (a, w) → HasWord (loaded beside m) a w }
{}
