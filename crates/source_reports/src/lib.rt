//! Reports of a source: its image and size, its lines beside their words, a source in ObjAsm's dialect in our
//! grammar, and drafts of statements.
#![tactic(auto)]

mod assembly;
mod begun;
mod draft;
mod list;
mod plain;
mod proof;

pub use assembly::{Written, asm_report, image_written};
pub use begun::draft_on_report;
pub use draft::{draft_report, entry_of};
pub use list::list_report;
pub use plain::plain_report;
