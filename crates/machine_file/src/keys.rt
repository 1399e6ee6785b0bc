ghost use Rattle.std.specs.Prelude.{◌≡◌, IfOk, map, option_map};
ghost use Rattle.toml.specs.Data.{string};
ghost use Rattle.toml.specs.View.{table_view, view};
ghost use Rattle.machine_file.specs.Written.{list_value, number, table_value};
ghost use Rattle.machine_file.specs.Written.{unless_zero, with_key, with_optional};

use std::alloc::{AllocError, Global};
use toml::{Table, Value};

/// Sets the value at a key. An error here and below says that an allocation failed.
pub(crate) fn set(
    alloc: Global,
    table: &mut Table,
    key: &str,
    value: Value,
) -> Result<(), AllocError>
    ensures { IfOk result
        (λ _. table_view table.new ≡ with_key key.now (view value) (table_view table.old)) }
{
    let key = String::from_str(alloc, key)?;
    table.insert(key, value)?;
    Ok(())
}

/// Sets a number.
pub(crate) fn set_number(
    alloc: Global,
    table: &mut Table,
    key: &str,
    value: u32,
) -> Result<(), AllocError>
    ensures { IfOk result
        (λ _. table_view table.new ≡ with_key key.now (number value) (table_view table.old)) }
{
    set(alloc, table, key, Value::from(value))
}

/// Sets a text.
pub(crate) fn set_text(
    alloc: Global,
    table: &mut Table,
    key: &str,
    text: &str,
) -> Result<(), AllocError>
    ensures { IfOk result
        (λ _. table_view table.new ≡ with_key key.now (string text.now) (table_view table.old)) }
{
    set(alloc, table, key, Value::string(alloc, text)?)
}

/// Sets a value, if there is one.
pub(crate) fn set_optional(
    alloc: Global,
    table: &mut Table,
    key: &str,
    value: Option<Value>,
) -> Result<(), AllocError>
    ensures { IfOk result
        (λ _. table_view table.new
        ≡ with_optional (table_view table.old) key.now (option_map view value)) }
{
    match value {
        Some(value) => set(alloc, table, key, value),
        None => Ok(()),
    }
}

/// A number, but for 0.
pub(crate) fn unless_zero(value: u32) -> Option<Value>
    ensures { option_map view result ≡ unless_zero value }
{
    if value == 0 {
        return None;
    }
    Some(Value::from(value))
}

/// A number, if there is one.
pub(crate) fn some_number(value: Option<u32>) -> Option<Value>
    ensures { option_map view result ≡ option_map number value }
{
    match value {
        Some(value) => Some(Value::from(value)),
        None => None,
    }
}

/// A list, but for an empty one.
pub(crate) fn list_value(values: Vec<Value>) -> Option<Value>
    ensures { option_map view result ≡ list_value (map view values.items) }
{
    if values.is_empty() {
        return None;
    }
    Some(Value::from(values))
}

/// A table, but for an empty one.
pub(crate) fn table_value(inner: Table) -> Option<Value>
    ensures { option_map view result ≡ table_value (table_view inner) }
{
    if inner.is_empty() {
        return None;
    }
    Some(Value::from(inner))
}
