ghost use Rattle.std.specs.Prelude.{◌≡◌, ◌++◌, OnOk, decimal};
ghost use Rattle.std.specs.BTreeMap.{get};
ghost use Rattle.std.specs.List.{flat_map};
ghost use Rattle.std.specs.Ordering.{nat_cmp};
ghost use Rattle.text_draft.specs.DraftText.{access_lists_text, accesses_text, bound_text, class_text};
ghost use Rattle.text_draft.specs.DraftText.{apart_text, stretch_list_text, stretch_text};
ghost use Rattle.text_draft.specs.DraftText.{entries_text, entry_list_text, entry_text, register_text};
ghost use Rattle.text_draft.specs.DraftText.{rule_list_text, rule_text, rules_text, spot_text};
ghost use Rattle.text_draft.specs.DraftText.{candidate_list_text, candidate_text, candidates_text};
ghost use Rattle.text_draft.specs.DraftText.{comment_text, cycle_text, destination_text, destinations_text};
ghost use Rattle.text_draft.specs.DraftText.{element_text, end_text, end_words, full_text, head_text};
ghost use Rattle.text_draft.specs.DraftText.{ground_text, loop_text, place_text, target_text, way_text};
ghost use Rattle.text_draft.specs.DraftText.{words_from, written};

use crate::accesses::FoundAccess;
use crate::draft_rows::{end_row, put_address, put_blanks, put_name};
use crate::ends::End;
use crate::found_loop::FoundLoop;
use crate::grounds::Ground;
use crate::pc_writers::{FoundTarget, Way};
use crate::rules::FoundRule;
use arm2_decode::Register;
use bus_ticks::{Class, ahead_of};
use statement::{ApartStretch, class_name};
use std::alloc::AllocError;
use std::collections::BTreeMap;
use text_rows::{SourceLine, put, put_decimal};

// So many branches one after another, from an address on.
#[derive(Clone, Copy)]
struct BranchTable {
    first: u32,
    branches: u32,
}

/// What is at the addresses.
#[derive(Drop)]
pub struct Sheet<'s, 'a> {
    pub lines: &'s BTreeMap<u32, SourceLine<'a>>,
}

impl<'a> Sheet<'_, 'a> {
    // The line of the word at an address.
    fn line(&self, at: u32) -> Option<SourceLine<'a>>
        ensures { result ≡ get nat_cmp self.now.lines.now at }
    {
        self.lines.get(&at).copied()
    }

    /// Adds a key with an address, beside the line that is there.
    pub(crate) fn put_place(
        &self,
        out: &mut Vec<u8>,
        indent: usize,
        key: &[u8],
        at: u32,
    ) -> Result<(), AllocError>
        ensures { OnOk result
            (out.new.items ≡ out.old.items ++ place_text self.now.lines.now indent key.now at) }
    {
        let start = out.len();
        let line = self.line(at);
        put_blanks(out, indent)?;
        put(out, key)?;
        put(out, b" = ")?;
        put_name(out, line, at)?;
        end_row(out, start, line)
    }

    // Adds a comment on an address.
    fn put_comment(&self, out: &mut Vec<u8>, at: u32, words: &[u8]) -> Result<(), AllocError>
        ensures { OnOk result
            (out.new.items ≡ out.old.items ++ comment_text self.now.lines.now at words.now) }
    {
        let start = out.len();
        put(out, b"# ")?;
        put_address(out, at)?;
        put(out, words)?;
        end_row(out, start, self.line(at))
    }

    // Adds an address between two texts, beside the line that is there.
    fn put_element(
        &self,
        out: &mut Vec<u8>,
        front: &[u8],
        at: u32,
        back: &[u8],
    ) -> Result<(), AllocError>
        ensures { OnOk result
            (out.new.items ≡ out.old.items ++ element_text self.now.lines.now front.now at back.now) }
    {
        let start = out.len();
        let line = self.line(at);
        put(out, front)?;
        put_name(out, line, at)?;
        put(out, back)?;
        end_row(out, start, line)
    }

    // Adds a rule, with what it stands for as a comment.
    fn put_rule(&self, out: &mut Vec<u8>, rule: &FoundRule) -> Result<(), AllocError>
        ensures { OnOk result (out.new.items ≡ out.old.items ++ rule_text self.now.lines.now rule.now) }
    {
        put(out, b"  {register = \"")?;
        put_register(out, rule.register)?;
        put(out, b"\"")?;
        put_class(out, rule.class, rule.basis)?;
        put(out, b"  # ")?;
        put_decimal(out, rule.count as u64)?;
        put(out, b" loads and stores, the first ")?;
        put_spot(out, self.line(rule.first), rule.first)?;
        put(out, b"\n")
    }

    /// Adds a row for each rule.
    pub(crate) fn put_each_rule(
        &self,
        out: &mut Vec<u8>,
        rules: &[FoundRule],
    ) -> Result<(), AllocError>
        ensures { OnOk result
            (out.new.items ≡ out.old.items ++ flat_map (rule_text self.now.lines.now) rules.now) }
    {
        for rule in rules {
            self.put_rule(out, rule)?;
        }
        Ok(())
    }

    fn put_rule_list(&self, out: &mut Vec<u8>, rules: &[FoundRule]) -> Result<(), AllocError>
        ensures { OnOk result
            (out.new.items ≡ out.old.items ++ rule_list_text self.now.lines.now rules.now) }
    {
        put(
            out,
            b"# By a base register, where they have no access of their own:\nbase = [\n",
        )?;
        self.put_each_rule(out, rules)?;
        put(out, b"]\n")
    }

    /// Adds the rules, if there are any.
    pub(crate) fn put_rules(&self, out: &mut Vec<u8>, rules: &[FoundRule]) -> Result<(), AllocError>
        ensures { OnOk result
            (out.new.items ≡ out.old.items ++ rules_text self.now.lines.now rules.now) }
    {
        if rules.is_empty() {
            return Ok(());
        }
        self.put_rule_list(out, rules)
    }

    fn put_entry(&self, out: &mut Vec<u8>, access: &FoundAccess) -> Result<(), AllocError>
        ensures { OnOk result (out.new.items ≡ out.old.items ++ entry_text self.now.lines.now access.now) }
    {
        let start = out.len();
        let line = self.line(access.at);
        put(out, b"  {at = ")?;
        put_name(out, line, access.at)?;
        put_class(out, access.class, access.basis)?;
        end_row(out, start, line)
    }

    /// Adds a row for each load and store.
    pub(crate) fn put_each_entry(
        &self,
        out: &mut Vec<u8>,
        entries: &[FoundAccess],
    ) -> Result<(), AllocError>
        ensures { OnOk result
            (out.new.items ≡ out.old.items ++ flat_map (entry_text self.now.lines.now) entries.now) }
    {
        for access in entries {
            self.put_entry(out, access)?;
        }
        Ok(())
    }

    fn put_entry_list(&self, out: &mut Vec<u8>, entries: &[FoundAccess]) -> Result<(), AllocError>
        ensures { OnOk result
            (out.new.items ≡ out.old.items ++ entry_list_text self.now.lines.now entries.now) }
    {
        put(out, b"access = [\n")?;
        self.put_each_entry(out, entries)?;
        put(out, b"]\n")
    }

    /// Adds the loads and stores, if there are any.
    pub(crate) fn put_entries(
        &self,
        out: &mut Vec<u8>,
        entries: &[FoundAccess],
    ) -> Result<(), AllocError>
        ensures { OnOk result
            (out.new.items ≡ out.old.items ++ entries_text self.now.lines.now entries.now) }
    {
        if entries.is_empty() {
            return Ok(());
        }
        self.put_entry_list(out, entries)
    }

    fn put_access_lists(
        &self,
        out: &mut Vec<u8>,
        rules: &[FoundRule],
        entries: &[FoundAccess],
    ) -> Result<(), AllocError>
        ensures { OnOk result
            (out.new.items
            ≡ out.old.items ++ access_lists_text self.now.lines.now rules.now entries.now) }
    {
        put(
            out,
            b"\n\
# What loads and stores reach: \"any\", \"ram\", \"rom\" or \"io\"; for devices of one speed\n\
# \"slow\", \"medium\", \"fast\" or \"synchronous\".\n",
        )?;
        self.put_rules(out, rules)?;
        self.put_entries(out, entries)
    }

    /// Adds the rules for base registers, and the loads and stores for which none stands, with their classes.
    ///
    /// # Errors
    ///
    /// An allocation failed.
    pub fn put_accesses(
        &self,
        out: &mut Vec<u8>,
        rules: &[FoundRule],
        entries: &[FoundAccess],
    ) -> Result<(), AllocError>
        ensures { OnOk result
            (out.new.items ≡ out.old.items ++ accesses_text self.now.lines.now rules.now entries.now) }
    {
        if rules.is_empty() && entries.is_empty() {
            return Ok(());
        }
        self.put_access_lists(out, rules, entries)
    }

    fn put_loop(&self, out: &mut Vec<u8>, found: &FoundLoop) -> Result<(), AllocError>
        ensures { OnOk result (out.new.items ≡ out.old.items ++ loop_text self.now.lines.now found.now) }
    {
        let indent = 2 * found.depth as usize;
        put(out, b"\n")?;
        put_blanks(out, indent)?;
        put(out, b"[[loop]]\n")?;
        self.put_place(out, indent, b"header", found.header)?;
        self.put_place(out, indent, b"first", found.first)?;
        self.put_place(out, indent, b"last", found.last)?;
        put_bound(out, indent, found.proved, found.turns)
    }

    /// Adds the loops, each inside those around it. A count for which no proof is claimed is a comment alone.
    ///
    /// # Errors
    ///
    /// An allocation failed.
    pub fn put_loops(&self, out: &mut Vec<u8>, loops: &[FoundLoop]) -> Result<(), AllocError>
        ensures { OnOk result
            (out.new.items ≡ out.old.items ++ flat_map (loop_text self.now.lines.now) loops.now) }
    {
        for found in loops {
            self.put_loop(out, found)?;
        }
        Ok(())
    }

    fn put_each_destination(&self, out: &mut Vec<u8>, table: BranchTable) -> Result<(), AllocError>
        ensures { OnOk result
            (out.new.items
            ≡ out.old.items
            ++ flat_map (destination_text self.now.lines.now) (words_from table.first table.branches)) }
    {
        let mut at = table.first;
        for _ in 0..table.branches {
            self.put_element(out, b"  ", at, b",")?;
            at = ahead_of(at, 4);
        }
        Ok(())
    }

    // Adds the destinations, or what to write of them.
    fn put_destinations(&self, out: &mut Vec<u8>, table: BranchTable) -> Result<(), AllocError>
        ensures { OnOk result
            (out.new.items
            ≡ out.old.items ++ destinations_text self.now.lines.now table.first table.branches) }
    {
        if table.branches == 0 {
            return put(
                out,
                b"to = \"?\"  # a list, or nothing for a return or a leave; then draft from this statement\n",
            );
        }
        put(out, b"to = [\n")?;
        self.put_each_destination(out, table)?;
        put(out, b"  \"?\",  # what else it may reach, or nothing\n]\n")
    }

    // Adds what the word shows, with its table if it jumps into one.
    fn put_way(&self, out: &mut Vec<u8>, target: &FoundTarget) -> Result<(), AllocError>
        ensures { OnOk result
            (out.new.items
            ≡ out.old.items
            ++ way_text self.now.lines.now target.now.way target.now.at target.now.branches) }
    {
        let table = BranchTable {
            first: ahead_of(target.at, 8),
            branches: target.branches,
        };
        match target.way {
            Way::Return => put(out, b"kind = \"return\"\n"),
            Way::Jump => {
                put(
                    out,
                    b"kind = \"jump\"  # or \"call\", \"return\", \"leave\"\n",
                )?;
                self.put_destinations(out, table)
            }
            Way::Call => {
                put(
                    out,
                    b"kind = \"call\"  # or \"jump\", \"return\", \"leave\"\n",
                )?;
                self.put_destinations(out, table)
            }
        }
    }

    fn put_target(&self, out: &mut Vec<u8>, target: &FoundTarget) -> Result<(), AllocError>
        ensures { OnOk result (out.new.items ≡ out.old.items ++ target_text self.now.lines.now target.now) }
    {
        put(out, b"\n[[target]]\n")?;
        self.put_place(out, 0, b"at", target.at)?;
        self.put_way(out, target)
    }

    /// Adds the words that write R15, with what is shown of where they lead.
    ///
    /// # Errors
    ///
    /// An allocation failed.
    pub fn put_targets(&self, out: &mut Vec<u8>, targets: &[FoundTarget]) -> Result<(), AllocError>
        ensures { OnOk result
            (out.new.items ≡ out.old.items ++ flat_map (target_text self.now.lines.now) targets.now) }
    {
        for target in targets {
            self.put_target(out, target)?;
        }
        Ok(())
    }

    fn put_each_candidate(&self, out: &mut Vec<u8>, candidates: &[u32]) -> Result<(), AllocError>
        ensures { OnOk result
            (out.new.items ≡ out.old.items ++ flat_map (candidate_text self.now.lines.now) candidates.now) }
    {
        for at in candidates {
            self.put_element(out, b"#   ", *at, b"")?;
        }
        Ok(())
    }

    fn put_candidate_list(
        &self,
        out: &mut Vec<u8>,
        side: &[u8],
        candidates: &[u32],
    ) -> Result<(), AllocError>
        ensures { OnOk result
            (out.new.items
            ≡ out.old.items ++ candidate_list_text self.now.lines.now side.now candidates.now) }
    {
        put(
            out,
            b"\n# The words name these addresses of the source, to which a \"?\" ",
        )?;
        put(out, side)?;
        put(out, b" may lead:\n")?;
        self.put_each_candidate(out, candidates)
    }

    /// Adds a comment with addresses to which words may lead, to a side of it, if any are left open.
    ///
    /// # Errors
    ///
    /// An allocation failed.
    pub fn put_candidates(
        &self,
        out: &mut Vec<u8>,
        side: &[u8],
        open_left: bool,
        candidates: &[u32],
    ) -> Result<(), AllocError>
        ensures { OnOk result
            (out.new.items
            ≡ out.old.items ++ candidates_text self.now.lines.now side.now open_left candidates.now) }
    {
        if !open_left {
            return Ok(());
        }
        if candidates.is_empty() {
            return Ok(());
        }
        self.put_candidate_list(out, side, candidates)
    }

    /// Adds a comment for each address at which the handler cannot go on.
    ///
    /// # Errors
    ///
    /// An allocation failed.
    pub fn put_ends(&self, out: &mut Vec<u8>, ends: &[(u32, End)]) -> Result<(), AllocError>
        ensures { OnOk result
            (out.new.items ≡ out.old.items ++ flat_map (end_text self.now.lines.now) ends.now) }
    {
        for (at, end) in ends {
            self.put_comment(out, *at, end_words(*end))?;
        }
        Ok(())
    }

    /// Adds a comment for each cycle that no loop bounds.
    ///
    /// # Errors
    ///
    /// An allocation failed.
    pub fn put_cycles(&self, out: &mut Vec<u8>, cycles: &[u32]) -> Result<(), AllocError>
        ensures { OnOk result
            (out.new.items ≡ out.old.items ++ flat_map (cycle_text self.now.lines.now) cycles.now) }
    {
        for at in cycles {
            self.put_comment(out, *at, b": a cycle that no loop bounds.")?;
        }
        Ok(())
    }

    fn put_stretch(&self, out: &mut Vec<u8>, stretch: &ApartStretch) -> Result<(), AllocError>
        ensures { OnOk result
            (out.new.items ≡ out.old.items ++ stretch_text self.now.lines.now stretch.now) }
    {
        self.put_element(out, b"  [", stretch.first, b",")?;
        self.put_element(out, b"   ", stretch.last, b"],")
    }

    /// Adds the rows of each stretch.
    pub(crate) fn put_each_stretch(
        &self,
        out: &mut Vec<u8>,
        stretches: &[ApartStretch],
    ) -> Result<(), AllocError>
        ensures { OnOk result
            (out.new.items ≡ out.old.items ++ flat_map (stretch_text self.now.lines.now) stretches.now) }
    {
        for stretch in stretches {
            self.put_stretch(out, stretch)?;
        }
        Ok(())
    }

    fn put_stretch_list(
        &self,
        out: &mut Vec<u8>,
        stretches: &[ApartStretch],
    ) -> Result<(), AllocError>
        ensures { OnOk result
            (out.new.items ≡ out.old.items ++ stretch_list_text self.now.lines.now stretches.now) }
    {
        put(
            out,
            b"\n# Words that belong to no loop among whose addresses they lie:\napart = [\n",
        )?;
        self.put_each_stretch(out, stretches)?;
        put(out, b"]\n")
    }

    /// Adds the words apart, if there are any.
    ///
    /// # Errors
    ///
    /// An allocation failed.
    pub fn put_apart(&self, out: &mut Vec<u8>, stretches: &[ApartStretch]) -> Result<(), AllocError>
        ensures { OnOk result
            (out.new.items ≡ out.old.items ++ apart_text self.now.lines.now stretches.now) }
    {
        if stretches.is_empty() {
            return Ok(());
        }
        self.put_stretch_list(out, stretches)
    }

    /// Adds the head, with the entry.
    ///
    /// # Errors
    ///
    /// An allocation failed.
    pub fn put_head(&self, out: &mut Vec<u8>, entry: u32) -> Result<(), AllocError>
        ensures { OnOk result (out.new.items ≡ out.old.items ++ head_text self.now.lines.now entry) }
    {
        put(
            out,
            b"# A draft, of what the words show. Write something for each \"?\". A bound counts\n",
        )?;
        put(
            out,
            b"# turns back: of a loop that runs eight times seven.\n",
        )?;
        self.put_place(out, 0, b"entry", entry)?;
        put(
            out,
            b"# leave = \"ram\"  # where it returns to, if always to one: \"ram\", \"rom\" or \"io\"\n",
        )?;
        put(out, b"returns = \"stated\"\n")
    }
}

/// Adds the name of a register.
pub(crate) fn put_register(out: &mut Vec<u8>, register: Register) -> Result<(), AllocError>
    ensures { OnOk result (out.new.items ≡ out.old.items ++ register_text register) }
{
    put(out, b"R")?;
    put_decimal(out, u64::from(register.number()))
}

/// The class that is written: one that rests on a pattern alone is left to the author.
pub(crate) fn written(class: Class, basis: Ground) -> Class
    ensures { result ≡ written class basis }
{
    match basis {
        Ground::Word | Ground::Proof => class,
        Ground::Pattern => Class::Any,
    }
}

fn put_pattern(out: &mut Vec<u8>, class: Class) -> Result<(), AllocError>
    ensures { OnOk result (out.new.items ≡ out.old.items ++ ground_text class Ground.Pattern) }
{
    put(out, b"  # looks like \"")?;
    put(out, class_name(class).as_bytes())?;
    put(out, b"\"")
}

/// Adds what a class rests on, as a comment.
pub(crate) fn put_ground(out: &mut Vec<u8>, class: Class, basis: Ground) -> Result<(), AllocError>
    ensures { OnOk result (out.new.items ≡ out.old.items ++ ground_text class basis) }
{
    match basis {
        Ground::Word => Ok(()),
        Ground::Proof => put(out, b"  # proved"),
        Ground::Pattern => put_pattern(out, class),
    }
}

// Adds a class, and ends a table.
fn put_class(out: &mut Vec<u8>, class: Class, basis: Ground) -> Result<(), AllocError>
    ensures { OnOk result (out.new.items ≡ out.old.items ++ class_text class basis) }
{
    put(out, b", class = \"")?;
    put(out, class_name(written(class, basis)).as_bytes())?;
    put(out, b"\"},")?;
    put_ground(out, class, basis)
}

// Adds where a word is.
fn put_spot(out: &mut Vec<u8>, line: Option<SourceLine>, at: u32) -> Result<(), AllocError>
    ensures { OnOk result (out.new.items ≡ out.old.items ++ spot_text line.entry at) }
{
    let Some(line) = line else {
        put(out, b"at ")?;
        return put_address(out, at);
    };
    put(out, b"in line ")?;
    put_decimal(out, line.number as u64)
}

// Adds a number in front of a text.
fn put_counted(out: &mut Vec<u8>, turns: u32, back: &[u8]) -> Result<(), AllocError>
    ensures { OnOk result (out.new.items ≡ out.old.items ++ (decimal turns ++ back.now)) }
{
    put_decimal(out, u64::from(turns))?;
    put(out, back)
}

fn put_bound(
    out: &mut Vec<u8>,
    indent: usize,
    proved: bool,
    turns: Option<u32>,
) -> Result<(), AllocError>
    ensures { OnOk result (out.new.items ≡ out.old.items ++ bound_text indent proved turns) }
{
    put_blanks(out, indent)?;
    let Some(turns) = turns else {
        return put(out, b"bound = \"?\"\n");
    };
    if proved {
        put(out, b"bound = ")?;
        put_counted(out, turns, b"  # proved\n")
    } else {
        put(out, b"bound = \"?\"  # looks like ")?;
        put_counted(out, turns, b"\n")
    }
}

/// Adds that as many addresses were looked at as may be, if they were.
///
/// # Errors
///
/// An allocation failed.
pub(crate) fn put_full(out: &mut Vec<u8>, full: bool) -> Result<(), AllocError>
    ensures { OnOk result (out.new.items ≡ out.old.items ++ full_text full) }
{
    if full {
        put(
            out,
            b"# It ends after 16384 addresses: what else is reached is left out.\n",
        )?;
    }
    Ok(())
}

fn end_words(end: End) -> &'static [u8]
    ensures { result.now ≡ end_words end }
{
    match end {
        End::NoWord => b": reached, and no word is there.",
        End::Unallocated => b": reached, and the word is no instruction.",
        End::Trap => b": reached, and the word is a SWI or undefined.",
    }
}
