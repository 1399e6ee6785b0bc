ghost use Rattle.std.specs.Prelude.{◌≡◌, IfOk, map, option_map};
ghost use Rattle.toml.specs.Data.{Data};
ghost use Rattle.toml.specs.View.{view};
ghost use Rattle.toml_reading.specs.Documents.{items_at, list_at, listed, tables_at};
ghost use Rattle.toml_reading.specs.Readings.{Reading, items_in};

use crate::readings::{Fault, Reading, append};
use std::alloc::{AllocError, Global};
use toml::Value;

/// What is read of one value of a list, with what else its format hands in.
pub trait Entry<C, F: Fault>: Drop {
    ghost reads: { C → Data → Reading F Self };

    /// Reads the value.
    ///
    /// # Errors
    ///
    /// An allocation failed.
    fn read(alloc: Global, context: &C, value: &Value) -> Result<Reading<Self, F>, AllocError>
    where
        Self: Sized,
        ensures { IfOk result (λ reading. reading ≡ reads context.now (view value.now)) };
}

/// The values of a list.
pub fn values_of(value: &Value) -> Option<&[Value]>
    ensures { option_map (λ values. map view values.now) result ≡ items_at (view value.now) }
{
    match value.as_array() {
        Some(values) => Some(values.as_slice()),
        None => None,
    }
}

/// What is read of each value of a list. An error says that an allocation failed.
pub(crate) fn read_list<T: Entry<C, F>, C, F: Fault>(
    alloc: Global,
    context: &C,
    values: &[Value],
) -> Result<Reading<Vec<T>, F>, AllocError>
    ensures { IfOk result
        (λ list. items_in list ≡ listed F.faults (T.reads context.now) (map view values.now)) }
{
    let mut list = Ok(Vec::new(alloc));
    for value in values {
        list = append(list, T::read(alloc, context, value)?)?;
    }
    Ok(list)
}

/// What is read of a value that must be a list.
///
/// # Errors
///
/// An allocation failed.
pub fn list<T: Entry<C, F>, C, F: Fault>(
    alloc: Global,
    context: &C,
    value: &Value,
) -> Result<Reading<Vec<T>, F>, AllocError>
    ensures { IfOk result (λ list. items_in list ≡ list_at F.faults (T.reads context.now) (view value.now)) }
{
    match values_of(value) {
        Some(values) => read_list(alloc, context, values),
        None => Ok(Err(F::wrong_kind())),
    }
}

/// What is read of each table of a list, which is empty where the key is missing.
///
/// # Errors
///
/// An allocation failed.
pub fn tables<T: Entry<C, F>, C, F: Fault>(
    alloc: Global,
    context: &C,
    value: Option<&Value>,
) -> Result<Reading<Vec<T>, F>, AllocError>
    ensures { IfOk result
        (λ list. items_in list
        ≡ tables_at F.faults (T.reads context.now) (option_map (λ v. view v.now) value.entry)) }
{
    match value {
        Some(value) => list(alloc, context, value),
        None => Ok(Ok(Vec::new(alloc))),
    }
}
