//! Which classes and counts of a draft are proved.

ghost use Rattle.std.specs.Prelude.{◌≡◌, ◌==◌, ◌||◌, ℕ, false, IfErr, IfOk, IfSome, List, None, OnOk};
ghost use Rattle.std.specs.BTreeSet.{contains};
ghost use Rattle.std.specs.List.{list_all, list_any};
ghost use Rattle.std.specs.Ordering.{nat_cmp};
ghost use Rattle.control_flow.specs.Graph.{IsFlowGraph};
ghost use Rattle.loop_bounds.specs.Handler.{HasItsTree};
ghost use Rattle.handlers.specs.Report.{IsHandlerOf};
ghost use Rattle.source_reports.specs.Proved.{FollowsFromCode, IsProved, is_bounded_so};
ghost use Rattle.source_reports.specs.Standing.{AllFollows, AreTrusted, HasAll, IsSaid, all_stands};
ghost use Rattle.source_reports.specs.Standing.{claims_no_class, claims_no_count, claims_nothing};
ghost use Rattle.source_reports.specs.Standing.{class_stands};
ghost use Rattle.source_reports.specs.Standing.{count_stands, has_class, has_count};
ghost use Rattle.text_draft.specs.Closed.{closed};
ghost use Rattle.text_draft.specs.Rules.{is_same_class};

use bus_ticks::{Class, Profile};
use handlers::{ReportFault, read_handler};
use known_places::{OnTrust, left_on_trust, proposed};
use known_words::Knowledge;
use loop_bounds::Handler;
use sources::Source;
use statement::Statement;
use std::alloc::{AllocError, Global};
use std::collections::BTreeSet;
use text_draft::{Claims, DraftParts, FoundAccess, FoundLoop, Ground, closed};

/// What is left on trust, to be looked up.
#[derive(Drop)]
pub struct Trusted {
    pub classes: BTreeSet<u32>,
    pub loops: BTreeSet<u32>,
}

/// What drafts of one handler are made from: what was found of it, what may be known at its places, once that
/// was searched for, and what the next draft claims.
#[derive(Drop)]
pub struct Rounds {
    pub found: DraftParts,
    pub table: Vec<Knowledge>,
    pub claims: Claims,
}

impl Rounds {
    /// Before the first, which claims all.
    pub(crate) fn first(alloc: Global, found: DraftParts) -> Rounds
        ensures { result.found ≡ found }
    {
        Rounds {
            found,
            table: Vec::new(alloc),
            claims: Claims::all(alloc),
        }
    }
}

fn add(set: &mut BTreeSet<u32>, address: u32) -> Result<(), AllocError>
    ensures { OnOk result
        ((a : ℕ) → contains nat_cmp set.new a ≡ (contains nat_cmp set.old a || (address == a))) }
{
    set.insert(address)?;
    Ok(())
}

fn set_of(alloc: Global, addresses: &[u32]) -> Result<BTreeSet<u32>, AllocError>
    ensures { IfOk result (λ set. HasAll (contains nat_cmp set) addresses.now) }
{
    let mut set = BTreeSet::new(alloc);
    for address in addresses {
        add(&mut set, *address)?;
    }
    Ok(set)
}

fn trusted_of(alloc: Global, left: &OnTrust) -> Result<Trusted, AllocError>
    ensures { IfOk result (AreTrusted left.now) }
{
    Ok(Trusted {
        classes: set_of(alloc, &left.classes)?,
        loops: set_of(alloc, &left.loops)?,
    })
}

// ## What is claimed of a statement

fn same_class(class: Class, other: Class) -> bool
    ensures { result ≡ is_same_class class other }
{
    class == other
}

// Whether the statement gives the load or store the class, and not on trust.
fn has_class(statement: &Statement, trusted: &Trusted, access: &FoundAccess) -> bool
    ensures { result ≡ has_class statement.now trusted.now access.now }
{
    same_class(
        statement.class_at(access.at, Some(access.base)),
        access.class,
    ) && !trusted.classes.contains(&access.at)
}

// Whether the statement has the loop with that bound.
fn states_count(statement: &Statement, header: u32, turns: u32) -> bool
    ensures { result ≡ list_any (is_bounded_so header turns) statement.now.loops.list }
{
    statement
        .loops()
        .list()
        .iter()
        .any(|l| l.header == header && l.bound == turns)
}

// Whether it has it, and not on trust.
fn has_count(statement: &Statement, trusted: &Trusted, header: u32, turns: u32) -> bool
    ensures { result ≡ has_count statement.now trusted.now header turns }
{
    states_count(statement, header, turns) && !trusted.loops.contains(&header)
}

fn class_stands(statement: &Statement, trusted: &Trusted, access: &FoundAccess) -> bool
    ensures { result ≡ class_stands statement.now trusted.now access.now }
{
    match access.basis {
        Ground::Word | Ground::Pattern => true,
        Ground::Proof => has_class(statement, trusted, access),
    }
}

fn count_stands(statement: &Statement, trusted: &Trusted, found: &FoundLoop) -> bool
    ensures { result ≡ count_stands statement.now trusted.now found.now }
{
    if !found.proved {
        return true;
    }
    match found.turns {
        Some(turns) => has_count(statement, trusted, found.header, turns),
        None => true,
    }
}

fn classes_stand(statement: &Statement, trusted: &Trusted, accesses: &[FoundAccess]) -> bool
    ensures { result ≡ list_all (class_stands statement.now trusted.now) accesses.now }
{
    accesses
        .iter()
        .all(|access| class_stands(statement, trusted, access))
}

fn counts_stand(statement: &Statement, trusted: &Trusted, loops: &[FoundLoop]) -> bool
    ensures { result ≡ list_all (count_stands statement.now trusted.now) loops.now }
{
    loops
        .iter()
        .all(|found| count_stands(statement, trusted, found))
}

// Whether all that is claimed holds.
fn all_stands(statement: &Statement, trusted: &Trusted, found: &DraftParts) -> bool
    ensures { result ≡ all_stands statement.now trusted.now found.now }
{
    classes_stand(statement, trusted, &found.accesses)
        && counts_stand(statement, trusted, &found.counted)
}

fn claims_no_class(access: &FoundAccess) -> bool
    ensures { result ≡ claims_no_class access.now }
{
    match access.basis {
        Ground::Word | Ground::Pattern => true,
        Ground::Proof => false,
    }
}

fn claims_no_count(found: &FoundLoop) -> bool
    ensures { result ≡ claims_no_count found.now }
{
    if !found.proved {
        return true;
    }
    match found.turns {
        Some(_) => false,
        None => true,
    }
}

fn claim_no_class(accesses: &[FoundAccess]) -> bool
    ensures { result ≡ list_all claims_no_class accesses.now }
{
    accesses.iter().all(|access| claims_no_class(access))
}

fn claim_no_count(loops: &[FoundLoop]) -> bool
    ensures { result ≡ list_all claims_no_count loops.now }
{
    loops.iter().all(|found| claims_no_count(found))
}

// Whether nothing is claimed.
fn claims_nothing(found: &DraftParts) -> bool
    ensures { result ≡ claims_nothing found.now }
{
    claim_no_class(&found.accesses) && claim_no_count(&found.counted)
}

// ## What is left of it

fn put_classes(
    claims: &mut Claims,
    statement: &Statement,
    trusted: &Trusted,
    found: &DraftParts,
) -> Result<(), AllocError> {
    for access in &found.accesses {
        if !claims_no_class(access) && class_stands(statement, trusted, access) {
            claims.classes.insert(access.at)?;
        }
    }
    Ok(())
}

fn put_loops(
    claims: &mut Claims,
    statement: &Statement,
    trusted: &Trusted,
    found: &DraftParts,
) -> Result<(), AllocError> {
    for one in &found.counted {
        if !claims_no_count(one) && count_stands(statement, trusted, one) {
            claims.loops.insert(one.header)?;
        }
    }
    Ok(())
}

// What holds of what is claimed.
fn standing(
    alloc: Global,
    statement: &Statement,
    trusted: &Trusted,
    found: &DraftParts,
) -> Result<Claims, AllocError> {
    let mut claims = Claims::none(alloc);
    put_classes(&mut claims, statement, trusted, found)?;
    put_loops(&mut claims, statement, trusted, found)?;
    Ok(claims)
}

// ## Drafts

// Nothing where all that is claimed follows from the handler's code by the table, else what may be claimed
// instead.
fn judged_by(
    alloc: Global,
    handler: &Handler<'_>,
    table: &[Knowledge],
    found: &DraftParts,
) -> Result<Option<Claims>, AllocError>
    requires graph { IsFlowGraph handler.now.image.now handler.now.statement handler.now.graph.profile
        handler.now.graph }
    requires tree { HasItsTree handler.now }
    ensures { IfOk result (λ left. left ≡ None → AllFollows handler.now found.now) }
{
    let Some(left) = left_on_trust(alloc, handler, &[], table)? else {
        return Ok(Some(Claims::none(alloc)));
    };
    let trusted = trusted_of(alloc, &left)?;
    if all_stands(&handler.statement, &trusted, found) {
        return Ok(None);
    }
    Ok(Some(standing(alloc, &handler.statement, &trusted, found)?))
}

// The same, where a table is searched for if there is none: what is known of the registers depends on neither
// classes nor counts.
fn judged_handler(
    alloc: Global,
    handler: &Handler<'_>,
    found: &DraftParts,
    table: &mut Vec<Knowledge>,
) -> Result<Option<Claims>, AllocError>
    requires graph { IsFlowGraph handler.now.image.now handler.now.statement handler.now.graph.profile
        handler.now.graph }
    requires tree { HasItsTree handler.now }
    ensures { IfOk result (λ left. left ≡ None → AllFollows handler.now found.now) }
{
    if table.is_empty() {
        *table = proposed(alloc, handler, &[])?;
    }
    judged_by(alloc, handler, table, found)
}

// No handler, for another reason than lack of memory.
fn without_handler<'s>(fault: ReportFault) -> Result<Option<Handler<'s>>, ReportFault>
    ensures none { IfOk result (λ found. found ≡ None) }
    ensures memory { IfErr result (λ e. e ≡ ReportFault.Memory) }
{
    match fault {
        ReportFault::Memory => Err(ReportFault::Memory),
        _ => Ok(None),
    }
}

// The handler that a text states on the source, if it states one.
fn handler_of<'s>(
    alloc: Global,
    read: &'s Source<'_>,
    text: &[u8],
    profile: &Profile,
) -> Result<Option<Handler<'s>>, ReportFault>
    ensures is { IfOk result (λ found. IfSome found (IsHandlerOf read.now text.now profile.now)) }
    ensures memory { IfErr result (λ e. e ≡ ReportFault.Memory) }
{
    match read_handler(alloc, read, text, profile) {
        Ok(handler) => Ok(Some(handler)),
        Err(stop) => without_handler(stop.fault()),
    }
}

// The same of the handler that a closed text states.
fn judged_on(
    alloc: Global,
    read: &Source<'_>,
    text: &[u8],
    found: &DraftParts,
    table: &mut Vec<Knowledge>,
) -> Result<Option<Claims>, ReportFault>
    requires said { IsSaid read.now }
    requires settled { found.now.open_left ≡ false }
    ensures proved { (draft : List ℕ) → text.now ≡ closed draft
        → IfOk result (λ left. left ≡ None → FollowsFromCode read.now draft found.now) }
    ensures memory { IfErr result (λ e. e ≡ ReportFault.Memory) }
{
    let profile = Profile::one();
    let Some(handler) = handler_of(alloc, read, text, &profile)? else {
        return Ok(Some(Claims::none(alloc)));
    };
    let left = judged_handler(alloc, &handler, found, table)?;
    Ok(left)
}

/// Nothing where all that a draft claims is proved, else what may be claimed instead: less than it does. The
/// table is of what may be known at the places of its handler, and may be empty.
///
/// # Errors
///
/// `Memory`: an allocation failed.
pub(crate) fn judged(
    alloc: Global,
    read: &Source<'_>,
    text: &[u8],
    found: &DraftParts,
    table: &mut Vec<Knowledge>,
) -> Result<Option<Claims>, ReportFault>
    requires { IsSaid read.now }
    ensures proved { IfOk result (λ left. left ≡ None → IsProved read.now text.now found.now) }
    ensures memory { IfErr result (λ e. e ≡ ReportFault.Memory) }
{
    if claims_nothing(found) {
        return Ok(None);
    }
    if found.open_left {
        return Ok(Some(Claims::none(alloc)));
    }
    let text = closed(alloc, text)?;
    judged_on(alloc, read, &text, found, table)
}
