//! On which physical pages the words of an image lie.

ghost use Rattle.std.specs.Prelude.{◌≡◌, IfOk, map, nat_eq};
ghost use Rattle.std.specs.List.{filter, list_any, zip};
ghost use Rattle.image.specs.Inside.{AreWhole};
ghost use Rattle.image.specs.Pages.{Ascend};
ghost use Rattle.loader.specs.PagePlan.{IsPagePlan, free_pages, is_logical, placed};

use image::Image;
use memc::PHYSICAL_PAGES;
use std::alloc::{AllocError, Global};

/// Logical pages of 32 KB are numbered below this, and the page of this number plus p is the physical page p.
pub(crate) const LOGICAL_PAGES: u32 = 1024;

/// A logical page on a physical page, both of 32 KB and by number: below 1,024 and below 128.
#[derive(Clone, Copy, Debug, PartialEq, Eq, Drop)]
pub struct PlacedPage {
    pub logical: u32,
    pub physical: u32,
}

/// The physical page of each logical page that has words of an image, and one physical page that has none.
#[derive(Drop)]
pub struct PagePlan {
    /// By ascending logical pages.
    pub pages: Vec<PlacedPage>,
    /// A physical page that no word of the image lies on, whether by its own address or by the plan.
    pub spare: u32,
}

// Whether a page is one of pages that ascend.
fn is_held(held: &[u32], page: u32) -> bool
    requires { Ascend held.now }
    ensures { result ≡ list_any (nat_eq page) held.now }
{
    held.binary_search(&page).is_ok()
}

// The physical pages that no word names by its own address, of pages with words, which ascend.
fn free_pages(alloc: Global, held: &[u32]) -> Result<Vec<u32>, AllocError>
    requires { Ascend held.now }
    ensures { IfOk result (λ free. free.items ≡ free_pages held.now) }
{
    (0..PHYSICAL_PAGES)
        .filter(|page| !is_held(held, LOGICAL_PAGES + *page))
        .collect(alloc)
}

// The logical pages of pages with words, in turn on free physical pages.
fn placed_pages(alloc: Global, held: &[u32], free: &[u32]) -> Result<Vec<PlacedPage>, AllocError>
    ensures { IfOk result (λ pages. pages.items ≡ map placed (zip (filter is_logical held.now) free.now)) }
{
    held.iter()
        .copied()
        .filter(|page| *page < LOGICAL_PAGES)
        .zip(free.iter().copied())
        .map(|(logical, physical)| PlacedPage { logical, physical })
        .collect(alloc)
}

/// Plans the pages of an image for a memory with pages of 32 KB.
///
/// Each logical page with a word of the image below 2000000 is placed, and the physical pages are the lowest
/// that no word of the image from 2000000 to 23FFFFF lies on. An image has words on at most 40 pages, so that
/// there are enough. It takes time linear in the image's words.
///
/// # Errors
///
/// An allocation failed.
pub fn page_plan(alloc: Global, image: &Image) -> Result<PagePlan, AllocError>
    ensures plan { IfOk result (λ plan. IsPagePlan image.now plan.pages.items plan.spare) }
    ensures whole { AreWhole image.now }
{
    image.whole();
    let held = image.held_pages(alloc)?;
    let free = free_pages(alloc, &held)?;
    let pages = placed_pages(alloc, &held, &free)?;
    let spare = free[pages.len()];
    Ok(PagePlan { pages, spare })
}
