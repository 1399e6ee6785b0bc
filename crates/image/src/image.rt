ghost use Rattle.std.specs.Prelude.{◌≡◌, ◌≤◌, ◌⊎◌, ◌↔◌, ◌+◌, ◌++◌, ◌-◌, []};
ghost use Rattle.std.specs.Prelude.{All, IsTrue, IsSome, IfOk, OnOk};
ghost use Rattle.std.specs.Prelude.{is_some};
ghost use Rattle.std.specs.Prelude.{OnErr, IfErr, length, map, not};
ghost use Rattle.std.specs.List.{list_all, slice_get};
ghost use Rattle.image.specs.ImageBytes.{segments_of};
ghost use Rattle.image.specs.Inside.{AreWhole};
ghost use Rattle.image.specs.Pages.{AreHeld, page_of};
ghost use Rattle.image.specs.Image.{AreOf, IsFitted};
ghost use Rattle.image.specs.Image.{is_past_ram, may_hold, put_fault, runs_of, with_word, word_of};
ghost use Rattle.image.specs.declared.image.ImageFault.TheVariants.{Memory};

use crate::gap_buffer::{
    Entry, first, is_above, is_below, last, move_down, move_up, nth_above, nth_below, word_above,
    word_below, word_if,
};
use crate::places::{MOST_SEGMENTS, MOST_WORDS, is_past_ram, may_hold};
use std::alloc::{AllocError, AllocFailed, Global};
use std::collections::VecDeque;
use std::marker::Model;
use thiserror::Error;

/// How many bytes the largest pages have: 32 KB.
pub const PAGE_BYTES: u32 = 32_768;

/// Why an image does not take a word.
#[derive(Clone, Copy, Debug, PartialEq, Eq, Drop, Error)]
pub enum ImageFault {
    /// An allocation failed.
    #[error("Memory")]
    Memory,
    /// The address is no multiple of 4, in I/O or past 3FFFFFC, or it holds a word already.
    #[error("OutOfRange")]
    OutOfRange,
    /// There would be more than 65,536 words, or more than 16 runs of words side by side.
    #[error("TooLong")]
    TooLong,
}

impl From<AllocError> for ImageFault {
    ghost from_gives = { λ _ fault. fault ≡ Memory };

    fn from(_refused: AllocError) -> ImageFault {
        ImageFault::Memory
    }
}

impl<T: Drop> From<AllocFailed<T>> for ImageFault {
    ghost from_gives = { λ _ fault. fault ≡ Memory };

    fn from(_refused: AllocFailed<T>) -> ImageFault {
        ImageFault::Memory
    }
}

/// The words of a program by their addresses, which are below 2^26.
#[derive(Drop)]
pub struct Image {
    // Words mostly come side by side. So that the next one is added at an end, the words below it are kept
    // apart from those above it, both by ascending addresses.
    pub(crate) below: Vec<Entry>,
    pub(crate) above: VecDeque<Entry>,
    pub(crate) runs: usize,
}

// Whether there is a word at an address, four bytes in front of it and four after it.
#[derive(Clone, Copy)]
struct Beside {
    at: bool,
    before: bool,
    after: bool,
}

impl Model for Image {
    ghost use Rattle.image.specs.Image.{Words};

    ghost Value = { Words };

    ghost use Rattle.image.specs.Inside.{words_in, IsImage};

    ghost view = { words_in };

    ghost invariant = { IsImage };
}

fn are_fitted(words: &[Entry]) -> bool
    ensures { result ≡ list_all (λ e. not (is_past_ram e.0)) words.now }
{
    words.iter().all(|entry| !is_past_ram(entry.0))
}

fn above_is_fitted(words: &VecDeque<Entry>) -> bool
    ensures { result ≡ list_all (λ e. not (is_past_ram e.0)) words.now.items }
{
    let (front, back) = words.as_slices();
    are_fitted(front) && are_fitted(back)
}

fn push_all(words: &mut Vec<Entry>, more: &[Entry]) -> Result<(), AllocError>
    ensures { OnOk result (words.new.items ≡ words.old.items ++ more.now) }
{
    for entry in more {
        words.push(*entry)?;
    }
    Ok(())
}

impl Image {
    /// An image without a word. It takes no memory.
    pub fn new(alloc: Global) -> Self
        ensures { result ≡ [] }
    {
        Image {
            below: Vec::new(alloc),
            above: VecDeque::new(alloc),
            runs: 0,
        }
    }

    /// The word at an address.
    pub fn word_at(&self, address: u32) -> Option<u32>
        ensures value { result ≡ word_of self.now address }
        ensures held { IsSome result → IsTrue (may_hold address) }
    {
        match word_below(&self.below, address) {
            Some(word) => Some(word),
            None => word_above(&self.above, address),
        }
    }

    /// The number of words, at most 65,536.
    pub fn words(&self) -> u32
        ensures { result ≡ length self.now }
    {
        self.held() as u32
    }

    /// The number of segments, which are the maximal runs of words side by side: at most 16.
    pub fn segments(&self) -> u32
        ensures runs { result ≡ runs_of self.now }
        ensures written { result ≡ length (segments_of self.now) }
    {
        self.runs as u32
    }

    /// The address of the n-th word by ascending addresses, counted from 0.
    pub fn address(&self, n: u32) -> Option<u32>
        ensures { result ≡ slice_get (map (λ e. e.0) self.now) n }
    {
        let (address, _) = self.nth(n as usize)?;
        Some(address)
    }

    fn nth(&self, n: usize) -> Option<Entry>
        ensures { result ≡ slice_get self.now n }
    {
        match nth_below(&self.below, n) {
            Some(entry) => Some(entry),
            None => nth_above(&self.above, n.saturating_sub(self.below.len())),
        }
    }

    /// Whether each word lies where a machine with the most RAM, 128 pages of 32 KB, has memory: none from
    /// 2400000 to 2FFFFFF.
    pub fn is_fitted(&self) -> bool
        ensures fitted { IsTrue result ↔ All (λ e. IsFitted e.0) self.now }
        ensures own { AreOf self.now self.now }
    {
        self.whole();
        self.none_is_past_ram()
    }

    fn none_is_past_ram(&self) -> bool
        ensures { result ≡ list_all (λ e. not (is_past_ram e.0)) self.now }
    {
        are_fitted(&self.below) && above_is_fitted(&self.above)
    }

    /// States what every image keeps; it does nothing.
    pub fn whole(&self)
        ensures { AreWhole self.now }
    {
        let _runs = self.runs;
    }

    /// The words with their addresses, which ascend.
    ///
    /// # Errors
    ///
    /// An allocation failed.
    pub fn listed(&self, alloc: Global) -> Result<Vec<(u32, u32)>, AllocError>
        ensures words { IfOk result (λ words. words.items ≡ self.now) }
        ensures few { length self.now ≤ MOST_WORDS }
    {
        let mut words = Vec::from_slice(alloc, &self.below)?;
        let (front, back) = self.above.as_slices();
        push_all(&mut words, front)?;
        push_all(&mut words, back)?;
        Ok(words)
    }

    // The page of 32 KB of each word, by number.
    fn pages(&self, alloc: Global) -> Result<Vec<u32>, AllocError>
        ensures { IfOk result (λ pages. pages.items ≡ map (λ e. page_of e.0) self.now) }
    {
        let words = self.listed(alloc)?;
        words
            .iter()
            .map(|entry| entry.0 / PAGE_BYTES)
            .collect(alloc)
    }

    /// The numbers of the pages of 32 KB on which words lie, ascending: at most 40.
    ///
    /// # Errors
    ///
    /// An allocation failed.
    pub fn held_pages(&self, alloc: Global) -> Result<Vec<u32>, AllocError>
        ensures { IfOk result (λ pages. AreHeld self.now pages.items) }
    {
        self.whole();
        let mut pages = self.pages(alloc)?;
        pages.dedup();
        Ok(pages)
    }

    /// The number of words.
    pub(crate) fn held(&self) -> usize
        ensures held { result ≡ length self.now }
        ensures few { length self.now ≤ MOST_WORDS }
    {
        self.below.len() + self.above.len()
    }

    // What is beside an address, which mostly lies between the words below and those above.
    fn beside(&self, address: u32) -> Beside
        requires { IsTrue (may_hold address) }
        ensures at { result.at ≡ is_some (word_of self.now address) }
        ensures before { result.before ≡ is_some (word_of self.now (address - 4)) }
        ensures after { result.after ≡ is_some (word_of self.now (address + 4)) }
    {
        let (before, after) = (address.saturating_sub(4), address + 4);
        let (low, high) = (last(&self.below), first(&self.above));
        if is_below(low, address) && is_above(high, address) {
            return Beside {
                at: false,
                before: word_if(low, before).is_some(),
                after: word_if(high, after).is_some(),
            };
        }
        Beside {
            at: self.word_at(address).is_some(),
            before: self.word_at(before).is_some(),
            after: self.word_at(after).is_some(),
        }
    }

    // The number of runs with one more word, which joins the runs beside it, or why it cannot be put.
    fn runs_with(&self, address: u32, word: u32) -> Result<usize, ImageFault>
        ensures runs { IfOk result (λ runs. runs ≡ runs_of (with_word self.now address word)) }
        ensures allowed { OnOk result (put_fault self.now address word ≡ None) }
        ensures fault { IfErr result (λ fault. put_fault self.now address word ≡ Some fault) }
    {
        if !may_hold(address) {
            return Err(ImageFault::OutOfRange);
        }
        let beside = self.beside(address);
        if beside.at {
            return Err(ImageFault::OutOfRange);
        }
        if self.held() >= MOST_WORDS {
            return Err(ImageFault::TooLong);
        }
        let runs = self.runs + 1 - usize::from(beside.before) - usize::from(beside.after);
        if runs > MOST_SEGMENTS {
            return Err(ImageFault::TooLong);
        }
        Ok(runs)
    }

    /// Puts a word where there is none. Its time is linear in the words between this one and the last that
    /// was put.
    ///
    /// # Errors
    ///
    /// `OutOfRange`: the address is no multiple of 4, in I/O (3000000 to 33FFFFF) or past 3FFFFFC, or it
    /// holds a word already. Else `TooLong`: a 65,537th word, or a 17th run of words side by side. `Memory`:
    /// an allocation failed. After any the image is as it was.
    pub fn put(&mut self, _alloc: Global, address: u32, word: u32) -> Result<(), ImageFault>
        ensures ok { OnOk result
            ((self.new ≡ with_word self.old address word) × (put_fault self.old address word ≡ None)) }
        ensures fault { IfErr result
            (λ fault. (fault ≡ ImageFault.Memory) ⊎ (put_fault self.old address word ≡ Some fault)) }
        ensures unchanged { OnErr result (self.new ≡ self.old) }
    {
        let runs = self.runs_with(address, word)?;
        move_up(&mut self.below, &mut self.above, address)?;
        move_down(&mut self.below, &mut self.above, address)?;
        self.below.push((address, word))?;
        self.runs = runs;
        Ok(())
    }
}
