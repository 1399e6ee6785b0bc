//! What is printed of a run that is judged by a statement.

ghost use Rattle.std.specs.Prelude.{◌≡◌, ℕ, List, IfOk, string_bytes};
ghost use Rattle.follow_reports.specs.FollowText.{IsLeftText, IsLineNumberAt, access_name, access_text};
ghost use Rattle.follow_reports.specs.FollowText.{class_shown, kept_text, left_line, less_text, line_text};
ghost use Rattle.follow_reports.specs.FollowText.{stray_text, strayed_text, times_text, turned_text};
ghost use Rattle.follow_reports.specs.FollowText.{way_text, why_text};
ghost use Rattle.sources.specs.Source.{IsSource};
ghost use Rattle.sources.specs.File.{File};

use bus_ticks::{Class, class_of, narrowest_class};
use kept_runs::{Access, Stray, Unkept};
use sources::Source;
use statement::{Statement, Taken, class_name};
use std::alloc::{AllocError, Global};
use text_trace::{exception_name, why_name};

/// How much less than the most of this name the ticks are. `AllocError`: an allocation failed.
pub(crate) fn less_text(
    alloc: Global,
    name: &str,
    ticks: u128,
    most: u128,
) -> Result<String, AllocError>
    ensures { IfOk result (λ text. string_bytes text ≡ less_text name.now ticks most) }
{
    if ticks == most {
        return format!(in alloc; "the {name}");
    }
    let less = most.saturating_sub(ticks);
    format!(in alloc; "{less} less than the {name}")
}

/// The line on a run that keeps the statement: its ticks, and how much less than the bound they are.
pub(crate) fn kept_text(alloc: Global, ticks: u128, bound: u64) -> Result<String, AllocError>
    ensures { IfOk result (λ text. string_bytes text ≡ kept_text ticks bound) }
{
    let less = less_text(alloc, "bound", ticks, u128::from(bound))?;
    format!(in alloc; "kept: {ticks} ticks, {less}\n")
}

fn access_name(store: bool) -> &'static str
    ensures { result.now ≡ access_name store }
{
    if store { "stored to " } else { "loaded from " }
}

// The class of an address, by its speed where one is stated.
fn class_shown(stated: Class, address: u32) -> Class
    ensures { result ≡ class_shown stated address }
{
    match stated {
        Class::Ram | Class::Rom | Class::Io | Class::Any => class_of(address),
        Class::Slow | Class::Medium | Class::Fast | Class::Synchronous => narrowest_class(address),
    }
}

fn access_text(alloc: Global, stated: Class, access: Access) -> Result<String, AllocError>
    ensures { IfOk result (λ text. string_bytes text ≡ access_text stated access) }
{
    let name = access_name(access.store);
    let address = access.address;
    let class = class_name(class_shown(stated, address));
    let stated = class_name(stated);
    format!(in alloc; "{name}{address:X}, {class}; {stated} is stated")
}

// Which way a word went of which this one is stated.
fn way_text(stated: Taken) -> &'static str
    ensures { result.now ≡ way_text stated }
{
    match stated {
        Taken::Always => "passed over, and stated always to be done",
        Taken::Never => "done, and stated never to be",
    }
}

// How the step of a word strays for which at most so many cycles are stated.
fn stray_text(alloc: Global, stated: u32, stray: Stray) -> Result<String, AllocError>
    ensures { IfOk result (λ text. string_bytes text ≡ stray_text stated stray) }
{
    match stray {
        Stray::OtherWord => String::from_str(alloc, "fetches another word than the source's"),
        Stray::Exception(vector) => format!(in alloc; "exception {}", exception_name(vector)),
        Stray::Stopped(why) => format!(in alloc; "stopped {}", why_name(why)),
        Stray::OtherWay(taken) => String::from_str(alloc, way_text(taken)),
        Stray::OtherClass {
            access,
            stated: class,
        } => access_text(alloc, class, access),
        Stray::MoreCycles(cycles) => format!(in alloc; "{cycles} cycles; {stated} stated"),
        Stray::Elsewhere(to) => format!(in alloc; "went to {to:X}, which is not stated"),
    }
}

fn times_text(alloc: Global, times: u64) -> Result<String, AllocError>
    ensures { IfOk result (λ text. string_bytes text ≡ times_text times) }
{
    if times == 1 {
        return String::from_str(alloc, "once");
    }
    format!(in alloc; "{times} times")
}

// That a loop turned back once more than its bound.
fn turned_text(alloc: Global, bound: u32) -> Result<String, AllocError>
    ensures { IfOk result (λ text. string_bytes text ≡ turned_text bound) }
{
    let times = times_text(alloc, u64::from(bound) + 1)?;
    format!(in alloc; "turned back {times}; {bound} stated")
}

/// Why the step at the address does not keep the statement.
pub(crate) fn why_text(
    alloc: Global,
    statement: &Statement,
    at: u32,
    why: Unkept,
) -> Result<String, AllocError>
    ensures { IfOk result (λ text. string_bytes text ≡ why_text statement.now at why) }
{
    match why {
        Unkept::NotAtEntry => {
            let entry = statement.entry();
            format!(in alloc; "not the entry, which is {entry:X}")
        }
        Unkept::Stray(stray) => stray_text(alloc, statement.cycles_at(at), stray),
        Unkept::TurnedBack(span) => turned_text(alloc, span.bound),
        Unkept::Unfinished => String::from_str(alloc, "the steps end inside the handler"),
    }
}

fn line_text(alloc: Global, line: Option<u64>) -> Result<String, AllocError>
    ensures { IfOk result (λ text. string_bytes text ≡ line_text line) }
{
    match line {
        Some(line) => format!(in alloc; ", line {line}"),
        None => Ok(String::new(alloc)),
    }
}

/// The line on a run that does not keep the statement: the number of the step that does not, from 0, its
/// address and its line, and why.
pub(crate) fn strayed_text(
    alloc: Global,
    steps: u128,
    at: u32,
    line: Option<u64>,
    why: &str,
) -> Result<String, AllocError>
    ensures { IfOk result (λ text. string_bytes text ≡ strayed_text steps at line why.now) }
{
    let line = line_text(alloc, line)?;
    format!(in alloc; "step {steps}, {at:X}{line}: {why}\n")
}

// The line on a run that goes on at a word of the source, by that word's line.
fn left_line(alloc: Global, at: u32, line: Option<u64>) -> Result<String, AllocError>
    ensures { IfOk result (λ text. string_bytes text ≡ left_line at line) }
{
    let line = line_text(alloc, line)?;
    format!(in alloc; "left to {at:X}{line}, a word of the source\n")
}

/// The number of the line of a source that has a word at the address; none of an image.
pub(crate) fn line_number_at(
    alloc: Global,
    read: &Source<'_>,
    address: u32,
) -> Result<Option<u64>, AllocError>
    ensures { (source : File) → IsSource source read.now → IfOk result (IsLineNumberAt source address) }
{
    let lines = read.lines(alloc)?;
    Ok(lines.get(&address).map(|line| line.number as u64))
}

/// The line on a run that has gone on at the address, if the source has a word there; else nothing.
pub(crate) fn left_text(alloc: Global, read: &Source<'_>, at: u32) -> Result<Vec<u8>, AllocError>
    ensures { (source : File) → IsSource source read.now
        → IfOk result (λ text. IsLeftText source read.now.image at text.items) }
{
    if read.image.word_at(at).is_none() {
        return Ok(Vec::new(alloc));
    }
    let line = line_number_at(alloc, read, at)?;
    let text = left_line(alloc, at, line)?;
    Vec::from_slice(alloc, text.as_bytes())
}
