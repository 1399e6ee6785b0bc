//! What is known of the registers at each place of a handler, and which of the classes that are stated of its
//! accesses, and of the bounds of its loops, follow from that; which classes none of its runs keeps, and
//! which loops none leaves within the bounds; and where its words go that write R15.
#![tactic(auto)]

mod around;
mod destination;
mod endless;
mod headers;
mod limits;
mod loops;
mod never;
mod on_trust;
mod outside;
mod search;
mod table;
mod transfers;
mod turned;
mod word;

pub use destination::{Destination, destinations};
pub use endless::{endless_is_not_left, endless_loops};
pub use on_trust::OnTrust;
pub use outside::{outside_classes, outside_is_not_kept};
pub use search::proposed;
pub use table::left_on_trust;
