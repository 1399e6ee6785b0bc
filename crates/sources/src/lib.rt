//! Sources, texts and images: each is read once, into its words, its labels and the lines of its text. A text
//! may be in ObjAsm's dialect, as its first line or its reader says.
#![tactic(auto)]

mod dialect;
mod fault;
mod file;
mod origins;
mod read;
mod source_rows;

pub use dialect::PlainText;
pub use fault::SourceFault;
pub use file::{Dialect, SourceFile};
pub use read::{Source, SourceText};
pub use source_rows::ImageRows;
