//! The text of a response time.

ghost use Rattle.std.specs.Prelude.{◌≡◌, ◌++◌, ℕ, IfOk, IfSome, OnOk, option_map, string_bytes};
ghost use Rattle.bus_ticks.specs.declared.profile.Profile.{Profile};
ghost use Rattle.response_reports.specs.Question.{question_of};
ghost use Rattle.response_reports.specs.RespondText.{IsEveryTime, IsGreatestTime, IsResponseText, count_time};
ghost use Rattle.response_reports.specs.RespondText.{heading_text, interrupt_name, is_within, margin_text};
ghost use Rattle.response_reports.specs.RespondText.{part_line, part_lines, parts_text, response_line};
ghost use Rattle.response_reports.specs.RespondText.{fiq_line, response_of, time_words, visited_time};
ghost use Rattle.response_reports.specs.RespondText.{visits_text, with_visits, within_line};

use crate::asked::AskedResponse;
use crate::visits::{Response, VisitedTime};
use bus_ticks::Profile;
use handlers::VisitedBound;
use responses::{Interrupt, ResponseParts, entry_ticks};
use std::alloc::{AllocError, Global};
use text_explained::{Bursts, PricedBound, burst_lines};
use text_rows::{put, put_decimal};

/// Whether a response is within what is wanted, and the text that says so.
#[derive(Drop)]
pub(crate) struct ResponseAnswer {
    pub(crate) within: bool,
    pub(crate) text: Vec<u8>,
}

fn interrupt_name(interrupt: Interrupt) -> &'static [u8]
    ensures { result.now ≡ interrupt_name interrupt }
{
    match interrupt {
        Interrupt::Irq => b"irq",
        Interrupt::Fiq => b"fiq",
    }
}

// Adds the line of a part.
fn put_part(out: &mut Vec<u8>, name: &[u8], ticks: u64) -> Result<(), AllocError>
    ensures { OnOk result (out.new.items ≡ out.old.items ++ part_line name.now ticks) }
{
    put(out, name)?;
    put(out, b" ")?;
    put_decimal(out, ticks)?;
    put(out, b"\n")
}

// So many ticks of the 8 MHz processor, and in microseconds.
fn time_words(alloc: Global, ticks: u128) -> Result<String, AllocError>
    ensures { IfOk result (λ text. string_bytes text ≡ time_words ticks) }
{
    let rest = ticks % 8 * 125;
    format!(in alloc;
        "{ticks} ticks, {}.{}{}{} microseconds at 8 MHz",
        ticks / 8,
        rest / 100,
        rest / 10 % 10,
        rest % 10
    )
}

fn put_time(out: &mut Vec<u8>, ticks: u128) -> Result<(), AllocError>
    ensures { OnOk result (out.new.items ≡ out.old.items ++ time_words ticks) }
{
    let time = time_words(*out.allocator(), ticks)?;
    put(out, time.as_bytes())
}

// Adds the lines in front of the parts.
fn put_heading(out: &mut Vec<u8>, interrupt: Interrupt, label: &[u8]) -> Result<(), AllocError>
    ensures { OnOk result (out.new.items ≡ out.old.items ++ heading_text interrupt label.now) }
{
    put(out, b"arcwcet respond\n")?;
    put(out, interrupt_name(interrupt))?;
    put(out, b" to ")?;
    put(out, label)?;
    put(out, b"\n")
}

// Adds the lines of the parts, of which the entry is by the profile.
fn put_part_lines(
    out: &mut Vec<u8>,
    profile: &Profile,
    parts: ResponseParts,
) -> Result<(), AllocError>
    ensures { OnOk result (out.new.items ≡ out.old.items ++ part_lines profile.now parts) }
{
    let entry = u64::from(entry_ticks(profile, parts.interrupt));
    let own = u64::from(parts.own);
    put_part(out, b"in progress", parts.longest)?;
    put_part(out, b"masked", parts.masked)?;
    put_part(out, b"entry", entry)?;
    put_part(out, b"arrival", parts.arrival)?;
    put_part(out, b"step", own)
}

// Adds the line of the response.
fn put_response(out: &mut Vec<u8>, ticks: u64) -> Result<(), AllocError>
    ensures { OnOk result (out.new.items ≡ out.old.items ++ response_line ticks) }
{
    put(out, b"response ")?;
    put_time(out, u128::from(ticks))?;
    put(out, b"\n")
}

// Adds the lines of the parts, and that of their sum.
fn put_parts(
    out: &mut Vec<u8>,
    profile: &Profile,
    label: &[u8],
    parts: ResponseParts,
    response: u64,
) -> Result<(), AllocError>
    requires { response ≡ response_of profile.now parts }
    ensures { OnOk result (out.new.items ≡ out.old.items ++ parts_text profile.now label.now parts) }
{
    put_heading(out, parts.interrupt, label)?;
    put_part_lines(out, profile, parts)?;
    put_response(out, response)
}

// The time with so many bursts in all, if a number is given.
fn count_time(response: PricedBound, count: Option<u32>) -> u128
    ensures { result ≡ count_time response.burst response.ticks count }
{
    match count {
        Some(count) => response.with_bursts(u64::from(count)),
        None => u128::from(response.ticks),
    }
}

// The time with a burst every so many ticks, if a number is given. None where it never ends.
fn every_time(response: PricedBound, every: Option<u32>) -> Option<u128>
    ensures { IsEveryTime response.burst response.ticks every result }
{
    let Some(every) = every else {
        return Some(u128::from(response.ticks));
    };
    match response.fewest(every) {
        Some(fewest) => Some(response.with_bursts(fewest)),
        None => None,
    }
}

// The greatest of the times that are printed. None where one never ends.
fn greatest_time(response: PricedBound, bursts: Bursts) -> Option<u128>
    ensures { IsGreatestTime response.burst response.ticks bursts result }
{
    match every_time(response, bursts.every) {
        Some(every) => Some(count_time(response, bursts.count).max(every)),
        None => None,
    }
}

fn is_within(within: Option<u64>, time: Option<u128>) -> bool
    ensures { result ≡ is_within within time }
{
    match (within, time) {
        (None, _) => true,
        (Some(_), None) => false,
        (Some(within), Some(time)) => time <= u128::from(within),
    }
}

// Adds by how much a time is less than what is wanted, or more.
fn put_margin(out: &mut Vec<u8>, within: u64, time: Option<u128>) -> Result<(), AllocError>
    ensures { OnOk result (out.new.items ≡ out.old.items ++ margin_text within time) }
{
    let Some(time) = time else {
        return put(out, b"missed, it never ends");
    };
    let within = u128::from(within);
    if time <= within {
        put_time(out, within - time)?;
        put(out, b" to spare")
    } else {
        put(out, b"missed by ")?;
        put_time(out, time - within)
    }
}

// Adds the line of what is wanted, if it is given.
fn put_within(out: &mut Vec<u8>, within: Option<u64>, time: Option<u128>) -> Result<(), AllocError>
    ensures { OnOk result (out.new.items ≡ out.old.items ++ within_line within time) }
{
    let Some(within) = within else {
        return Ok(());
    };
    put(out, b"within ")?;
    put_decimal(out, within)?;
    put(out, b" ticks: ")?;
    put_margin(out, within, time)?;
    put(out, b"\n")
}

// So many visits of so many ticks, and the time with them.
fn visits_words(
    alloc: Global,
    profile: &Profile,
    response: u64,
    timed: VisitedTime,
) -> Result<String, AllocError>
    requires { visited_time profile.now response timed.visits ≡ timed.time }
    ensures { IfOk result (λ text. string_bytes text
        ≡ visits_text profile.now response timed.visits.bound timed.visits.visits) }
{
    let (Some(visits), Some(time)) = (timed.visits.visits, timed.time) else {
        return String::from_str(alloc, "it never ends\n");
    };
    let bound = VisitedBound {
        irq: response,
        fiq: timed.visits.bound,
    };
    let visit = bound.visit(profile);
    let time = time_words(alloc, u128::from(time))?;
    format!(in alloc; "{visits} visits of {visit}: {time}\n")
}

// Adds the line of the visits of FIQ's handler, if it is asked for.
fn put_visits(
    out: &mut Vec<u8>,
    profile: &Profile,
    response: u64,
    timed: Option<VisitedTime>,
) -> Result<(), AllocError>
    requires { IfSome timed (λ t. visited_time profile.now response t.visits ≡ t.time) }
    ensures { OnOk result (out.new.items
        ≡ out.old.items ++ fiq_line profile.now response (option_map (λ t. t.visits) timed)) }
{
    let Some(timed) = timed else {
        return Ok(());
    };
    put(out, b"with fiq every ")?;
    put_decimal(out, u64::from(timed.visits.every))?;
    put(out, b" ticks, waited ")?;
    put_decimal(out, timed.visits.waited)?;
    put(out, b": ")?;
    let text = visits_words(*out.allocator(), profile, response, timed)?;
    put(out, text.as_bytes())
}

// With the time with visits, where FIQ is asked for.
fn with_visits(time: Option<u128>, timed: Option<VisitedTime>) -> Option<u128>
    ensures { (profile : Profile) (response : ℕ)
        → IfSome timed (λ t. visited_time profile response t.visits ≡ t.time)
        → result ≡ with_visits profile response (option_map (λ t. t.visits) timed) time }
{
    let Some(timed) = timed else {
        return time;
    };
    match (time, timed.time) {
        (Some(time), Some(visited)) => Some(time.max(u128::from(visited))),
        _ => None,
    }
}

/// The text of a response with its visits, and whether it is within what is wanted.
pub(crate) fn response_answer(
    alloc: Global,
    asked: AskedResponse<'_>,
    profile: &Profile,
    response: Response,
    timed: Option<VisitedTime>,
) -> Result<ResponseAnswer, AllocError>
    requires ticks { response.ticks ≡ response_of profile.now response.parts }
    requires timed { IfSome timed (λ t. visited_time profile.now response.ticks t.visits ≡ t.time) }
    ensures { IfOk result (λ a. IsResponseText profile.now (question_of asked.entry) response.parts
        (option_map (λ t. t.visits) timed) a.within a.text.items) }
{
    let priced = PricedBound {
        ticks: response.ticks,
        burst: profile.burst,
    };
    let greatest = with_visits(greatest_time(priced, asked.bursts), timed);
    let mut text = Vec::new(alloc);
    put_parts(
        &mut text,
        profile,
        asked.label,
        response.parts,
        response.ticks,
    )?;
    let mut rest = burst_lines(alloc, profile, response.ticks, asked.bursts)?;
    put_visits(&mut rest, profile, response.ticks, timed)?;
    put_within(&mut rest, asked.within, greatest)?;
    text.extend_from_slice(&rest)?;
    Ok(ResponseAnswer {
        within: is_within(asked.within, greatest),
        text,
    })
}
