ghost use Rattle.std.specs.Prelude.{◌≡◌, ◌++◌, ℕ, IfOk};
ghost use Rattle.std.specs.List.Sorted.{IsNonDecreasingBy};
ghost use Rattle.statement.specs.ApartParts.{AreReaches, AreSorted, are_reached};
ghost use Rattle.statement.specs.Stated.{are_alike, is_apart, lies_at, lies_within, may_stand};

use bus_ticks::SPACE_END;
use std::alloc::{AllocError, Global};
use std::marker::Model;

/// Words that an author sets apart, from the first address to the last: they belong to no loop among whose
/// addresses they lie but one that is itself apart.
#[derive(Clone, Copy, Debug, PartialEq, Eq)]
pub struct ApartStretch {
    pub first: u32,
    pub last: u32,
}

/// The stretches of words that an author sets apart from loops, in the order of the text.
#[derive(Drop)]
pub struct ApartWords {
    stretches: Vec<ApartStretch>,
    // their first addresses, ascending, each with the greatest last address of those up to it
    reaches: Vec<(u32, u32)>,
}

// The first and last addresses of the stretches, ascending by the first.
fn sorted(alloc: Global, stretches: &[ApartStretch]) -> Result<Vec<(u32, u32)>, AllocError>
    ensures { IfOk result (λ reaches. AreSorted stretches.now reaches.items) }
{
    let mut reaches = Vec::with_capacity(alloc, stretches.len())?;
    for stretch in stretches {
        reaches.push((stretch.first, stretch.last))?;
    }
    reaches.sort_unstable_by_key(|reach| reach.0);
    Ok(reaches)
}

// Makes the last address of each the greatest of those up to it.
fn carry_on(reaches: &mut [(u32, u32)])
    requires { IsNonDecreasingBy (λ (r : ℕ × ℕ). r.0) reaches.old }
    ensures { AreReaches (are_reached reaches.old) reaches.new }
{
    let mut farthest = 0;
    for reach in reaches.iter_mut() {
        farthest = reach.1.max(farthest);
        reach.1 = farthest;
    }
}

impl Model for ApartWords {
    ghost use Rattle.std.specs.Prelude.{List};
    ghost use Rattle.statement.specs.declared.apart.ApartStretch.{ApartStretch};

    ghost Value = { List ApartStretch };

    ghost view = { λ words. words.stretches.items };

    ghost use Rattle.statement.specs.ApartParts.{AreReaches};
    ghost use Rattle.statement.specs.Stated.{is_apart};

    ghost invariant = { λ words. AreReaches (is_apart words.stretches.items) words.reaches.items };
}

impl ApartWords {
    /// Those of the stretches.
    ///
    /// # Errors
    ///
    /// An allocation failed.
    pub fn new(alloc: Global, stretches: Vec<ApartStretch>) -> Result<ApartWords, AllocError>
        ensures { IfOk result (λ words. words ≡ stretches.items) }
    {
        let mut reaches = sorted(alloc, &stretches)?;
        carry_on(&mut reaches);
        Ok(ApartWords { stretches, reaches })
    }

    /// These stretches, and then more.
    ///
    /// # Errors
    ///
    /// An allocation failed.
    pub(crate) fn also(
        &self,
        alloc: Global,
        more: &[ApartStretch],
    ) -> Result<ApartWords, AllocError>
        ensures { IfOk result (λ words. words ≡ self.now ++ more.now) }
    {
        let mut stretches = self.stretches.to_vec(alloc)?;
        stretches.extend_from_slice(more)?;
        ApartWords::new(alloc, stretches)
    }

    /// The stretches, in the order of the text.
    pub fn stretches(&self) -> &[ApartStretch]
        ensures { result.now ≡ self.now }
    {
        &self.stretches
    }

    /// Whether the word at an address is apart.
    pub fn is_apart(&self, address: u32) -> bool
        ensures { result ≡ is_apart self.now address }
    {
        let begun = self.reaches.partition_point(|reach| reach.0 <= address);
        begun != 0 && address <= self.reaches[begun - 1].1
    }

    /// Where the word at an address counts as lying for loops: at its address, but one that is apart, 2^26
    /// bytes behind it.
    pub fn lies_at(&self, address: u32) -> u64
        ensures { result ≡ lies_at self.now address }
    {
        let place = u64::from(address);
        if self.is_apart(address) || SPACE_END <= address {
            place + u64::from(SPACE_END)
        } else {
            place
        }
    }

    /// Whether the word lies from first to last, each where it lies for loops. Of a loop of a statement these
    /// are the words from its first address to its last that are apart exactly where its first word is.
    pub fn lies_within(&self, first: u32, word: u32, last: u32) -> bool
        ensures { result ≡ lies_within self.now first word last }
    {
        let place = self.lies_at(word);
        self.lies_at(first) <= place && place <= self.lies_at(last)
    }

    // Whether both words are apart, or neither is.
    fn are_alike(&self, a: u32, b: u32) -> bool
        ensures { result ≡ are_alike self.now a b }
    {
        self.is_apart(a) == self.is_apart(b)
    }

    /// Whether these may be a loop's first word, its header and its last word: the header lies from the first
    /// to the last, and the first and the last are both apart or neither is.
    pub fn may_stand(&self, first: u32, header: u32, last: u32) -> bool
        ensures { result ≡ may_stand self.now first header last }
    {
        self.lies_within(first, header, last) && self.are_alike(first, last)
    }
}
