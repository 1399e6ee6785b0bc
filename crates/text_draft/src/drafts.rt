ghost use Rattle.std.specs.Prelude.{◌≡◌, ◌++◌, ℕ, IfOk, None, OnOk, Option, Some};
ghost use Rattle.std.specs.List.Sorted.{IsStrictlySortedBy};
ghost use Rattle.std.specs.Ordering.{nat_cmp};
ghost use Rattle.sources.specs.Lines.{AreLines};
ghost use Rattle.statement.specs.Stated.{Stated};
ghost use Rattle.text_draft.specs.Draft.{HasFound, HasGrades, IsDraftText, is_full};
ghost use Rattle.text_draft.specs.DraftText.{draft_text};
ghost use Rattle.text_draft.specs.Reach.{AreReached};

use crate::accesses::{FoundAccess, find_accesses, unclassed_of};
use crate::begun::Begun;
use crate::candidates::find_candidates;
use crate::ends::{End, find_ends};
use crate::found_loop::FoundLoop;
use crate::grounds::{Claims, all_grounded, all_with_claim, all_with_ground, find_entries};
use crate::loops::{Loops, find_loops};
use crate::pc_writers::{FoundTarget, any_open, find_targets, leaves_open, pending_targets};
use crate::reach::{MOST_ADDRESSES, Reached, reach};
use crate::rules::{FoundRule, find_rules};
use crate::statement_text::{Sheet, put_full};
use image::Image;
use sources::Source;
use statement::Statement;
use std::alloc::{AllocError, Global};
use std::collections::BTreeMap;
use text_rows::SourceLine;

/// The loads and stores that have no class, and the rules for them, by what the words suggest.
#[derive(Drop)]
pub struct Shown {
    pub accesses: Vec<FoundAccess>,
    pub rules: Vec<FoundRule>,
}

/// What the words show of what is to be stated, and what is written of it: nothing, until it is said what is
/// claimed to be proved.
#[derive(Drop)]
pub struct DraftParts {
    /// Whether as many addresses were looked at as may be.
    pub full: bool,
    /// Whether that is so, or it is left open where a word leads.
    pub open_left: bool,
    pub ends: Vec<(u32, End)>,
    pub loops: Loops,
    pub shown: Shown,
    pub candidates: Vec<u32>,
    pub targets: Vec<FoundTarget>,
    /// The loads and stores with what their classes rest on, the rules, and those for which none stands.
    pub accesses: Vec<FoundAccess>,
    pub rules: Vec<FoundRule>,
    pub entries: Vec<FoundAccess>,
    /// The loops with the claims for their counts.
    pub counted: Vec<FoundLoop>,
}

impl DraftParts {
    /// Takes what is claimed to be proved. All else stays.
    ///
    /// # Errors
    ///
    /// An allocation failed.
    pub fn claim(&mut self, alloc: Global, image: &Image, claims: &Claims) -> Result<(), AllocError>
        ensures kept { OnOk result ((begun : Option Stated) → (entry : ℕ)
            → HasFound image.now begun entry self.old → HasFound image.now begun entry self.new) }
        ensures graded { OnOk result (HasGrades image.now claims.now self.new) }
    {
        self.accesses = all_grounded(alloc, image, claims, &self.shown.accesses)?;
        self.rules = all_with_ground(alloc, &self.accesses, &self.shown.rules)?;
        self.entries = find_entries(alloc, &self.rules, &self.accesses)?;
        self.counted = all_with_claim(alloc, claims, &self.loops.loops)?;
        Ok(())
    }
}

// Whether these are as many addresses as are looked at.
fn is_full(addresses: &[u32]) -> bool
    ensures { result ≡ is_full addresses.now }
{
    addresses.len() >= MOST_ADDRESSES
}

// What is found at the addresses that are reached.
fn find_at(
    alloc: Global,
    image: &Image,
    begun: &Begun<'_>,
    entry: u32,
    reach: &Reached,
) -> Result<DraftParts, AllocError>
    requires ascend { IsStrictlySortedBy nat_cmp reach.now.addresses.items }
    requires reached { AreReached image.now begun.now entry reach.now.addresses.items }
    ensures { IfOk result (HasFound image.now begun.now entry) }
{
    let addresses = reach.addresses.as_slice();
    let full = is_full(addresses);
    let ends = find_ends(alloc, image, addresses)?;
    let writers = find_targets(alloc, image, addresses)?;
    let targets = pending_targets(alloc, begun, &writers)?;
    let open_left = leaves_open(full, begun, &targets);
    let transfers = find_accesses(alloc, image, reach, addresses, open_left)?;
    let accesses = unclassed_of(alloc, begun, &transfers)?;
    let rules = find_rules(alloc, image, open_left, begun, &accesses)?;
    let candidates = find_candidates(alloc, image, addresses)?;
    let loops = find_loops(alloc, image, begun, reach, entry)?;
    Ok(DraftParts {
        full,
        open_left,
        ends,
        loops,
        shown: Shown { accesses, rules },
        candidates,
        targets,
        accesses: Vec::new(alloc),
        rules: Vec::new(alloc),
        entries: Vec::new(alloc),
        counted: Vec::new(alloc),
    })
}

// What the words show of what is to be stated of the handler that begins at an entry, and is not stated.
fn find(
    alloc: Global,
    image: &Image,
    begun: &Begun<'_>,
    entry: u32,
) -> Result<DraftParts, AllocError>
    ensures { IfOk result (HasFound image.now begun.now entry) }
{
    let reach = reach(alloc, image, begun, entry)?;
    find_at(alloc, image, begun, entry, &reach)
}

/// What the words show of what is to be stated of the handler that begins at an address: its loops, loads and
/// stores, and the words that write R15.
///
/// The clause says that among the addresses that are reached from the entry, by going on, a branch, a call or
/// a table of branches, exactly those are found at which the handler cannot go on, the loads and stores, and
/// the writers of R15 with their tables of branches and whether they return, but for words under NV; which
/// rules there are for base registers; and that each loop's header lies from its first to its last
/// instruction. Where more than 16,384 are reached, 16,384 of them are looked at. While it is left open where
/// a word leads, no class rests on the words in front, and no rule gives a word that was not looked at a
/// class that it does not show. That the loops are those of the handler is tested only.
///
/// # Errors
///
/// An allocation failed.
pub fn find_parts(alloc: Global, image: &Image, entry: u32) -> Result<DraftParts, AllocError>
    ensures { IfOk result (HasFound image.now None entry) }
{
    find(alloc, image, &Begun::nothing(), entry)
}

/// The same of what a statement lacks, from its entry on: a word with a target leads where that says, and
/// while that is open, also where the words show. The clause says that nothing which is stated is found: no
/// target of a word that has one, no class of a load or store that has one or a rule, no rule for a register
/// that has one, and no loop with the header of a stated one.
///
/// # Errors
///
/// An allocation failed.
pub fn find_lacking(
    alloc: Global,
    image: &Image,
    statement: &Statement,
) -> Result<DraftParts, AllocError>
    ensures { IfOk result (HasFound image.now (Some statement.now) statement.now.entry) }
{
    find(alloc, image, &Begun::of(statement), statement.entry())
}

fn put_found(
    out: &mut Vec<u8>,
    sheet: &Sheet,
    entry: u32,
    found: &DraftParts,
) -> Result<(), AllocError>
    ensures { OnOk result
        (out.new.items
        ≡ out.old.items
        ++ draft_text sheet.now.lines.now entry found.now.full found.now.ends.items
        found.now.loops.cycles.items found.now.loops.apart.items found.now.rules.items
        found.now.entries.items found.now.counted.items found.now.candidates.items
        found.now.targets.items) }
{
    sheet.put_head(out, entry)?;
    put_full(out, found.full)?;
    sheet.put_ends(out, &found.ends)?;
    sheet.put_cycles(out, &found.loops.cycles)?;
    sheet.put_apart(out, &found.loops.apart)?;
    sheet.put_accesses(out, &found.rules, &found.entries)?;
    sheet.put_loops(out, &found.counted)?;
    sheet.put_candidates(out, b"below", any_open(&found.targets), &found.candidates)?;
    sheet.put_targets(out, &found.targets)
}

// The text of what was found.
fn draft_text(
    alloc: Global,
    lines: &BTreeMap<u32, SourceLine>,
    entry: u32,
    found: &DraftParts,
) -> Result<Vec<u8>, AllocError>
    ensures { IfOk result
        (λ text. text.items
        ≡ draft_text lines.now entry found.now.full found.now.ends.items found.now.loops.cycles.items
        found.now.loops.apart.items found.now.rules.items found.now.entries.items
        found.now.counted.items found.now.candidates.items found.now.targets.items) }
{
    let mut out = Vec::new(alloc);
    put_found(&mut out, &Sheet { lines }, entry, found)?;
    Ok(out)
}

// The draft, where the lines are found by their addresses.
fn draft_by_lines(
    alloc: Global,
    source: &Source<'_>,
    lines: &BTreeMap<u32, SourceLine>,
    entry: u32,
    found: &DraftParts,
) -> Result<Vec<u8>, AllocError>
    requires { AreLines source.now lines.now }
    ensures { IfOk result (λ text. IsDraftText source.now entry found.now text.items) }
{
    draft_text(alloc, lines, entry, found)
}

/// A statement of the handler that begins at an address, to be filled in, of what was [found](find_parts) and
/// is [claimed](DraftParts::claim) to be proved: its entry, the loops, loads and stores, and the words that
/// write R15, with the lines of the source as comments.
///
/// The clause says what the text is, and that each label and each comment is that of the source's line that
/// has the word, by its number, its text and the label that it or a line before gives the address. A load or
/// store is named by an entry, or by a rule for its base register. A class is written where the word alone
/// shows it, or a proof is claimed for it, and a count where one is claimed for it; others are comments.
///
/// # Errors
///
/// An allocation failed.
pub fn draft(
    alloc: Global,
    source: &Source<'_>,
    entry: u32,
    found: &DraftParts,
) -> Result<Vec<u8>, AllocError>
    ensures { IfOk result (λ text. IsDraftText source.now entry found.now text.items) }
{
    let lines = source.lines(alloc)?;
    draft_by_lines(alloc, source, &lines, entry, found)
}
