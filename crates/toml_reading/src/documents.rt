ghost use Rattle.std.specs.Prelude.{IfOk, MatchOption};
ghost use Rattle.toml.specs.View.{table_view};
ghost use Rattle.toml_reading.specs.Documents.{IsDocument, IsNoDocument};

use std::alloc::{AllocError, Global};
use toml::Table;

/// The document of a text, or None where the text is not UTF-8 or no TOML document.
///
/// # Errors
///
/// An allocation failed.
pub fn document(alloc: Global, text: &[u8]) -> Result<Option<Table>, AllocError>
    ensures { IfOk result
        (λ made. MatchOption made (IsNoDocument text.now)
        (λ table. IsDocument text.now (table_view table))) }
{
    match toml::table_from_slice(alloc, text) {
        Ok(table) => Ok(Some(table)),
        Err(error) => {
            if error.is_memory() {
                Err(AllocError)
            } else {
                Ok(None)
            }
        }
    }
}
