ghost use Rattle.std.specs.Prelude.{◌≡◌, OnOk};
ghost use Rattle.text_explained.specs.Dearest.{AreChosen, ticks_at};

use crate::table_rows::TableRow;
use std::alloc::AllocError;
use std::cmp::Reverse;

// The ticks of a row.
fn ticks_at(row: &TableRow<'_>) -> u64
    ensures { result ≡ ticks_at row.now }
{
    match row.figures.taken {
        Some(taken) => taken.ticks,
        None => 0,
    }
}

/// Keeps so many of the rows as are asked for: those with the most ticks, the dearest first, and of equals as
/// they come. Where no number is asked for, all stay as they are. `AllocError`: an allocation failed.
pub(crate) fn keep_dearest(rows: &mut Vec<TableRow<'_>>, top: Option<u32>) -> Result<(), AllocError>
    ensures { OnOk result (AreChosen top rows.old.items rows.new.items) }
{
    let Some(most) = top else {
        return Ok(());
    };
    rows.sort_by_key(|row| Reverse(ticks_at(row)))?;
    rows.truncate(most as usize);
    Ok(())
}
