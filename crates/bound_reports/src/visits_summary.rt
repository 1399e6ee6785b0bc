ghost use Rattle.std.specs.Prelude.{◌≡◌, ◌++◌, IfOk, OnOk, codes, option_map, string_bytes};
ghost use Rattle.bound_reports.specs.VisitsReport.{bounds_text, number_line, rate_text};
ghost use Rattle.bound_reports.specs.VisitsReport.{summary, total_text, visits_text};

use crate::visit_rate::{MostVisits, VisitRate, waited_by};
use bus_ticks::{Profile, fiq_entry};
use handlers::VisitedBound;
use std::alloc::{AllocError, Global};
use text_rows::{put, put_number};

// Adds a line of a name and a number.
fn put_line(out: &mut Vec<u8>, name: &[u8], number: u64) -> Result<(), AllocError>
    ensures { OnOk result (out.new.items ≡ out.old.items ++ number_line name.now number) }
{
    put(out, name)?;
    put_number(out, number, 0)?;
    put(out, b"\n")
}

fn put_rate(out: &mut Vec<u8>, profile: &Profile, rate: VisitRate) -> Result<(), AllocError>
    ensures { OnOk result (out.new.items ≡ out.old.items ++ rate_text profile.now rate) }
{
    match rate {
        VisitRate::Times(_) => Ok(()),
        VisitRate::Every { every, waited } => {
            put_line(out, b"every ", u64::from(every))?;
            put_line(out, b"waited ", waited_by(profile, waited))
        }
    }
}

fn visits_text(alloc: Global, visits: u128) -> Result<String, AllocError>
    ensures { IfOk result (λ text. string_bytes text ≡ number_line (codes "visits ") visits) }
{
    format!(in alloc; "visits {visits}\n")
}

fn put_visits(out: &mut Vec<u8>, most: Option<MostVisits>) -> Result<(), AllocError>
    ensures { OnOk result
        (out.new.items ≡ out.old.items ++ visits_text (option_map (λ m. m.visits) most)) }
{
    let Some(most) = most else {
        return Ok(());
    };
    let text = visits_text(*out.allocator(), most.visits)?;
    put(out, text.as_bytes())
}

fn put_bounds(out: &mut Vec<u8>, profile: &Profile, bound: VisitedBound) -> Result<(), AllocError>
    ensures { OnOk result (out.new.items ≡ out.old.items ++ bounds_text profile.now bound.irq bound.fiq) }
{
    put_line(out, b"irq ", bound.irq)?;
    put_line(out, b"fiq ", bound.fiq)?;
    put_line(out, b"entry ", u64::from(fiq_entry(profile)))
}

fn put_total(out: &mut Vec<u8>, most: Option<MostVisits>) -> Result<(), AllocError>
    ensures { OnOk result
        (out.new.items ≡ out.old.items ++ total_text (option_map (λ m. m.total) most)) }
{
    match most {
        Some(most) => put_line(out, b"total ", most.total),
        None => put(out, b"it never ends\n"),
    }
}

/// Adds the lines in front of both reports: how often FIQ comes, the most visits, the bounds of both
/// handlers and the price of taking FIQ, and the total.
pub(crate) fn put_summary(
    out: &mut Vec<u8>,
    bound: VisitedBound,
    profile: &Profile,
    rate: VisitRate,
    most: Option<MostVisits>,
) -> Result<(), AllocError>
    ensures { OnOk result (out.new.items ≡ out.old.items
        ++ summary rate profile.now bound.irq bound.fiq (option_map (λ m. m.visits) most)
        (option_map (λ m. m.total) most)) }
{
    put(out, b"arcwcet visits\n")?;
    put_rate(out, profile, rate)?;
    put_visits(out, most)?;
    put_bounds(out, profile, bound)?;
    put_total(out, most)
}
