//! The file of facts that `justify` is given.

ghost use Rattle.std.specs.Prelude.{◌≡◌, IfErr, IfOk, option_map};
ghost use Rattle.arcwcet.specs.Facts.{AreFacts, HasNoFacts, facts_file};
ghost use Rattle.arcwcet.specs.Kept.{inputs_lent};

use crate::files::Inputs;
use given_facts::read_facts;
use handlers::ReportFault;
use known_words::Given;
use std::alloc::Global;

/// The bytes of the file of facts, if one is named: it stands behind the source and the statement.
pub(crate) fn facts_file<'b>(inputs: Inputs<'b>) -> Option<&'b [u8]>
    ensures { option_map (λ f. f.now) result ≡ facts_file (inputs_lent inputs.entry) }
{
    match inputs.rest.get(0) {
        Some(bytes) => Some(bytes),
        None => None,
    }
}

/// The facts of a file; none where there is no file.
///
/// # Errors
///
/// `Given` with the file's fault. `Memory`: an allocation failed.
pub(crate) fn facts_of(alloc: Global, file: Option<&[u8]>) -> Result<Vec<Given>, ReportFault>
    ensures are { IfOk result (λ facts. AreFacts (option_map (λ f. f.now) file.entry) facts.items) }
    ensures none { IfErr result (HasNoFacts (option_map (λ f. f.now) file.entry)) }
{
    match file {
        Some(text) => {
            let facts = read_facts(alloc, text)?;
            Ok(facts)
        }
        None => Ok(Vec::new(alloc)),
    }
}
