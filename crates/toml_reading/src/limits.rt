ghost use Rattle.std.specs.Prelude.{◌≡◌, IfOk, map, option_map};
ghost use Rattle.toml.specs.View.{view};
ghost use Rattle.toml_reading.specs.Documents.{list_up_to, listed_up_to, tables_up_to};
ghost use Rattle.toml_reading.specs.Readings.{items_in};

use crate::lists::{Entry, read_list, values_of};
use crate::readings::{Fault, Reading, check};
use std::alloc::{AllocError, Global};
use toml::Value;

/// What is read of each value of a list of at most so many.
///
/// # Errors
///
/// An allocation failed.
pub fn read_list_up_to<T: Entry<C, F>, C, F: Fault>(
    alloc: Global,
    context: &C,
    values: &[Value],
    limit: usize,
) -> Result<Reading<Vec<T>, F>, AllocError>
    ensures { IfOk result
        (λ list. items_in list ≡ listed_up_to F.faults limit (T.reads context.now) (map view values.now)) }
{
    let list = read_list(alloc, context, values)?;
    Ok(check(values.len() <= limit, F::out_of_range(), list))
}

// What is read of a value that must be a list of at most so many.
fn list_up_to<T: Entry<C, F>, C, F: Fault>(
    alloc: Global,
    context: &C,
    value: &Value,
    limit: usize,
) -> Result<Reading<Vec<T>, F>, AllocError>
    ensures { IfOk result
        (λ list. items_in list ≡ list_up_to F.faults limit (T.reads context.now) (view value.now)) }
{
    match values_of(value) {
        Some(values) => read_list_up_to(alloc, context, values, limit),
        None => Ok(Err(F::wrong_kind())),
    }
}

/// What is read of each table of a list of at most so many, which is empty where the key is missing.
///
/// # Errors
///
/// An allocation failed.
pub fn tables_up_to<T: Entry<C, F>, C, F: Fault>(
    alloc: Global,
    context: &C,
    value: Option<&Value>,
    limit: usize,
) -> Result<Reading<Vec<T>, F>, AllocError>
    ensures { IfOk result
        (λ list. items_in list
        ≡ tables_up_to F.faults limit (T.reads context.now) (option_map (λ v. view v.now) value.entry)) }
{
    match value {
        Some(value) => list_up_to(alloc, context, value, limit),
        None => Ok(Ok(Vec::new(alloc))),
    }
}
