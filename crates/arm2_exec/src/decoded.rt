ghost use Rattle.std.specs.Prelude.{◌≡◌, ◌/◌, ◌%◌, length};
ghost use Rattle.std.specs.Result.{ForErr, ForOk};
ghost use Rattle.arm2_decode.specs.Table.{IsUnallocated, Means};
ghost use Rattle.arm2_exec.specs.declared.decoded.TheConstants.{KEPT_WORDS};

use arm2_decode::{Instr, Unallocated, decode};
use std::alloc::{AllocError, Global};

// How many words are kept: those of 4 KB.
const KEPT_WORDS: u32 = 1024;

/// A word and its instruction, or why it has none.
#[derive(Clone, Copy)]
pub(crate) struct Row {
    word: u32,
    pub(crate) instr: Result<Instr, Unallocated>,
    ghost found: { ForOk instr (λ i. Means word i) },
    ghost unallocated: { ForErr instr (λ u. IsUnallocated word u) },
}

/// Words that were decoded lately: one for each place in 4 KB, which an address names by its bits 11 to 2.
#[derive(Drop)]
pub(crate) struct Decoded {
    rows: Vec<Row>,
    ghost whole: { length rows.items ≡ KEPT_WORDS },
}

fn row_of(word: u32) -> Row
    ensures { result.word ≡ word }
{
    Row {
        word,
        instr: decode(word),
    }
}

// The place of an address.
#[inline(always)]
fn place_of(address: u32) -> usize
    ensures { result ≡ address / 4 % KEPT_WORDS }
{
    (address / 4 % KEPT_WORDS) as usize
}

impl Decoded {
    ghost use Rattle.std.specs.Prelude.{◌≡◌, ◌/◌, ◌%◌, slice_index_or};
    ghost use Rattle.arm2_exec.specs.declared.decoded.Row.{Row};

    /// The word 0 at each place.
    pub(crate) fn new(alloc: Global) -> Result<Decoded, AllocError> {
        let rows = vec![in alloc; row_of(0); KEPT_WORDS as usize]?;
        Ok(Decoded { rows })
    }

    /// Decodes the word, unless the address has it already.
    #[inline(always)]
    pub(crate) fn keep(&mut self, address: u32, word: u32)
        ensures { (other : Row)
            → (slice_index_or self.new.rows.items (address / 4 % KEPT_WORDS) other).word ≡ word }
    {
        if self.rows[place_of(address)].word != word {
            self.decode_at(address, word);
        }
    }

    #[inline(never)]
    fn decode_at(&mut self, address: u32, word: u32)
        ensures { (other : Row)
            → (slice_index_or self.new.rows.items (address / 4 % KEPT_WORDS) other).word ≡ word }
    {
        self.rows[place_of(address)] = row_of(word);
    }

    /// The row for the address.
    #[inline(always)]
    pub(crate) fn row(&self, address: u32) -> &Row
        ensures { (other : Row)
            → result.now ≡ slice_index_or self.now.rows.items (address / 4 % KEPT_WORDS) other }
    {
        &self.rows[place_of(address)]
    }
}
