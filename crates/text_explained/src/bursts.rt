ghost use Rattle.std.specs.Prelude.{◌≡◌, ◌++◌, IfOk, OnOk};
ghost use Rattle.text_explained.specs.Bursts.{AreBurstLines, AreFewest, IsEveryLine, count_line, end_text};
ghost use Rattle.text_explained.specs.Bursts.{with_bursts};
ghost use Rattle.asm_text.specs.Appended.{Appends};

use crate::cost_columns::put_time;
use bus_ticks::Profile;
use std::alloc::{AllocError, Global};
use text_rows::{put, put_number};

/// The DMA bursts whose price is to be added to a bound.
#[derive(Clone, Copy)]
pub struct Bursts {
    /// So many in all.
    pub count: Option<u32>,
    /// One at the handler's first tick, and then one every so many ticks.
    pub every: Option<u32>,
}

/// A bound, and the price of a DMA burst, both in ticks.
#[derive(Clone, Copy)]
pub struct PricedBound {
    pub ticks: u64,
    pub burst: u32,
}

impl PricedBound {
    /// The ticks of the bound and so many bursts.
    pub fn with_bursts(self, count: u64) -> u128
        ensures { result ≡ with_bursts self.burst self.ticks count }
    {
        u128::from(self.ticks) + u128::from(count) * u128::from(self.burst)
    }

    /// The least number of bursts after which none comes before the end, where one comes every so many ticks.
    /// None where there is no end: a burst then takes all the time up to the next.
    pub fn fewest(self, every: u32) -> Option<u64>
        ensures { AreFewest self.burst self.ticks every result }
    {
        if self.ticks == 0 {
            return Some(0);
        }
        if every <= self.burst {
            return None;
        }
        Some(self.ticks.div_ceil(u64::from(every - self.burst)))
    }
}

// Adds the line of so many bursts in all.
fn put_count_line(
    out: &mut Vec<u8>,
    bound: PricedBound,
    count: Option<u32>,
) -> Result<(), AllocError>
    ensures { OnOk result (out.new.items ≡ out.old.items ++ count_line bound.burst bound.ticks count) }
{
    let Some(count) = count else {
        return Ok(());
    };
    put(out, b"with ")?;
    put_number(out, u64::from(count), 0)?;
    put(out, b" bursts ")?;
    put_time(out, bound.with_bursts(u64::from(count)))
}

// Adds the time with the fewest bursts, or that it never ends.
fn put_end_text(
    out: &mut Vec<u8>,
    bound: PricedBound,
    fewest: Option<u64>,
) -> Result<(), AllocError>
    ensures { OnOk result (out.new.items ≡ out.old.items ++ end_text bound.burst bound.ticks fewest) }
{
    match fewest {
        Some(count) => put_time(out, bound.with_bursts(count)),
        None => put(out, b"it never ends\n"),
    }
}

// Adds the line of a burst every so many ticks.
fn put_every_line(
    out: &mut Vec<u8>,
    bound: PricedBound,
    every: Option<u32>,
) -> Result<(), AllocError>
    ensures { OnOk result (Appends (IsEveryLine bound.burst bound.ticks every) out.old.items out.new.items) }
{
    let Some(every) = every else {
        return Ok(());
    };
    let fewest = bound.fewest(every);
    put(out, b"with a burst every ")?;
    put_number(out, u64::from(every), 0)?;
    put(out, b" ticks ")?;
    put_end_text(out, bound, fewest)
}

/// What DMA bursts add to a bound in ticks, by the profile's price of a burst: a line with the ticks of the
/// bound and so many bursts, and a line with those where a burst comes every so many ticks. The latter are
/// the bound and the fewest bursts after which none comes before the end; where bursts come so often that
/// there is no end, the line says so. A number that is not given has no line.
///
/// # Errors
///
/// An allocation failed.
pub fn burst_lines(
    alloc: Global,
    profile: &Profile,
    bound: u64,
    bursts: Bursts,
) -> Result<Vec<u8>, AllocError>
    ensures { IfOk result (λ text. AreBurstLines profile.now.burst bound bursts text.items) }
{
    let bound = PricedBound {
        ticks: bound,
        burst: profile.burst,
    };
    let mut out = Vec::new(alloc);
    put_count_line(&mut out, bound, bursts.count)?;
    put_every_line(&mut out, bound, bursts.every)?;
    Ok(out)
}
