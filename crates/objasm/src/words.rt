//! The words of ObjAsm that have a meaning of their own.

ghost use Rattle.std.specs.Prelude.{◌≡◌, ◌++◌, IfOk, OnOk, map};
ghost use Rattle.objasm.specs.Words.{cond_place, is_adr, is_assert, is_directive, is_load};
ghost use Rattle.objasm.specs.Words.{is_ltorg, is_nop, is_one_of, is_silent, kind_of, known_cond};
ghost use Rattle.objasm.specs.Words.{may_end_load, moved_word, sum_word, word_text};

use crate::exchanges::Flip;
use std::alloc::{AllocError, Global};

/// What the operands of a word are.
#[derive(Clone, Copy)]
pub enum Operands {
    /// Numbers: those of DCD, ORG and SWI.
    Values,
    /// Those of LDR and STR, whose numbers after `#` have signs.
    Offsets,
    /// Those of a word that is exchanged, whose number is changed.
    Exchanged(Flip),
    /// Those of ADR where it is a sum: the name of a map stands for a register and a number.
    Sums,
    /// Any other.
    Others,
}

const VALUE_WORDS: [&[u8]; 6] = [b"DCD", b"ORG", b"SWI", b"dcd", b"org", b"swi"];

const LOADS: [&[u8]; 2] = [b"LDR", b"ldr"];

// What follows LDR where it loads a byte, in two letters.
const BYTE_ENDS: [&[u8]; 2] = [b"BT", b"bt"];

const OFFSET_WORDS: [&[u8]; 4] = [b"LDR", b"STR", b"ldr", b"str"];

// Directives that stand for nothing here.
const SILENT: [&[u8]; 7] = [
    b"AREA", b"ENTRY", b"EXPORT", b"KEEP", b"OPT", b"SUBT", b"TTL",
];

const DIRECTIVES: [&[u8]; 49] = [
    b"ADRL", b"ALIGN", b"AOF", b"AOUT", b"BIN", b"CN", b"CP", b"DATA", b"DCB", b"DCFD", b"DCFS",
    b"DCW", b"ELSE", b"END", b"ENDIF", b"EQU", b"FIELD", b"FN", b"GBLA", b"GBLL", b"GBLS", b"GET",
    b"GLOBAL", b"IF", b"IMPORT", b"INCBIN", b"INCLUDE", b"INFO", b"LCLA", b"LCLL", b"LCLS",
    b"LEAF", b"LIB", b"LNK", b"MACRO", b"MAP", b"MEND", b"MEXIT", b"NOFP", b"RLIST", b"RN",
    b"ROUT", b"SETA", b"SETL", b"SETS", b"SPACE", b"STRONG", b"WEND", b"WHILE",
];

/// Whether a word is one of those.
pub(crate) fn is_one_of(words: &[&[u8]], word: &[u8]) -> bool
    ensures { result ≡ is_one_of (map (λ w. w.now) words.now) word.now }
{
    for known in words {
        if *known == word {
            return true;
        }
    }
    false
}

/// Whether a word is a directive that stands for nothing here.
pub(crate) fn is_silent(word: &[u8]) -> bool
    ensures { result ≡ is_silent word.now }
{
    is_one_of(&SILENT, word)
}

/// Whether a word is ASSERT.
pub(crate) fn is_assert(word: &[u8]) -> bool
    ensures { result ≡ is_assert word.now }
{
    word == b"ASSERT".as_slice()
}

/// Whether a word is LTORG.
pub(crate) fn is_ltorg(word: &[u8]) -> bool
    ensures { result ≡ is_ltorg word.now }
{
    word == b"LTORG".as_slice()
}

/// Whether a word is a directive of ObjAsm that is not translated.
pub(crate) fn is_directive(word: &[u8]) -> bool
    ensures { result ≡ is_directive word.now }
{
    is_one_of(&DIRECTIVES, word)
}

/// What the operands of a word are, by its first three letters.
pub(crate) fn kind_of(word: &[u8]) -> Operands
    ensures { result ≡ kind_of word.now }
{
    if word.len() < 3 {
        return Operands::Others;
    }
    let head = &word[..3];
    if is_one_of(&VALUE_WORDS, head) {
        Operands::Values
    } else if is_one_of(&OFFSET_WORDS, head) {
        Operands::Offsets
    } else {
        Operands::Others
    }
}

// Our name of a condition that ObjAsm has two names of.
fn known_cond(cond: &[u8]) -> &[u8]
    ensures { result.now ≡ known_cond cond.now }
{
    if cond == b"HS".as_slice() {
        b"CS"
    } else if cond == b"LO".as_slice() {
        b"CC"
    } else if cond == b"hs".as_slice() {
        b"cs"
    } else if cond == b"lo".as_slice() {
        b"cc"
    } else {
        cond
    }
}

// Where the condition of a word of this length stands.
fn cond_place(len: usize) -> usize
    ensures { result ≡ cond_place len }
{
    match len {
        3 => 1,
        4 => 2,
        _ => 3,
    }
}

/// Whether a word is ADR with any condition.
pub(crate) fn is_adr(word: &[u8]) -> bool
    ensures { result ≡ is_adr word.now }
{
    if word.len() < 3 {
        return false;
    }
    let head = &word[..3];
    head == b"ADR".as_slice() || head == b"adr".as_slice()
}

/// ADD with the condition of an ADR.
pub(crate) fn sum_word(alloc: Global, word: &[u8]) -> Result<Vec<u8>, AllocError>
    ensures { IfOk result (λ sum. sum.items ≡ sum_word word.now) }
{
    if word.len() < 3 {
        return Vec::from_slice(alloc, word);
    }
    let (head, rest) = word.split_at(3);
    let mut sum = if head == b"ADR".as_slice() {
        Vec::from_slice(alloc, b"ADD")?
    } else {
        Vec::from_slice(alloc, b"add")?
    };
    sum.extend_from_slice(rest)?;
    Ok(sum)
}

fn may_end_load(end: &[u8]) -> bool
    ensures { result ≡ may_end_load end.now }
{
    (end.len() == 0) | ((end.len() == 2) & !is_one_of(&BYTE_ENDS, end))
}

/// Whether a word is LDR with any condition.
pub(crate) fn is_load(word: &[u8]) -> bool
    ensures { result ≡ is_load word.now }
{
    if word.len() < 3 {
        return false;
    }
    is_one_of(&LOADS, &word[..3]) & may_end_load(&word[3..])
}

/// MOV with the condition of an LDR.
pub(crate) fn moved_word(alloc: Global, word: &[u8]) -> Result<Vec<u8>, AllocError>
    ensures { IfOk result (λ moved. moved.items ≡ moved_word word.now) }
{
    if word.len() < 3 {
        return Vec::from_slice(alloc, word);
    }
    let (head, rest) = word.split_at(3);
    let mut moved = if head == b"LDR".as_slice() {
        Vec::from_slice(alloc, b"MOV")?
    } else {
        Vec::from_slice(alloc, b"mov")?
    };
    moved.extend_from_slice(rest)?;
    Ok(moved)
}

/// Whether a word is NOP.
pub(crate) fn is_nop(word: &[u8]) -> bool
    ensures { result ≡ is_nop word.now }
{
    word == b"NOP".as_slice() || word == b"nop".as_slice()
}

/// Puts a word as our grammar has it.
pub(crate) fn put_word_text(word: &[u8], out: &mut Vec<u8>) -> Result<(), AllocError>
    ensures { OnOk result (out.new.items ≡ out.old.items ++ word_text word.now) }
{
    let place = cond_place(word.len());
    if word.len() < place + 2 {
        return out.extend_from_slice(word);
    }
    let (head, rest) = word.split_at(place);
    let (cond, suffix) = rest.split_at(2);
    out.extend_from_slice(head)?;
    out.extend_from_slice(known_cond(cond))?;
    out.extend_from_slice(suffix)
}
