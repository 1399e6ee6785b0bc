//! Sources in the dialect of Acorn's assembler ObjAsm, in our grammar.
//!
//! Each line stands for one of ours: a line that sets a name, and one that a condition leaves out, for a
//! comment. LTORG and the end of the source stand for several, where words are loaded above: behind the line
//! itself one for each. Which line of the author's each comes from is kept. The text is gone through three
//! times: twice for the names, so that a line may set one by another that is set below it, and then for what
//! stands for each line. What no definition names is left as it stands, and `assembler` judges it; directives
//! that are not known are refused here.
//!
//! No ObjAsm was at hand. The levels of operators follow its manual; what it would give for a division with a
//! number of 2^31 or more, and for a shift by 32 places or more, was not known, so these are refused.
//! `specs/Expressions.antt` says what an expression is, and `expressions_are_evaluated` that exactly these
//! are read, and to their values.
#![tactic(auto)]

mod conditions;
mod evaluation;
mod exchanges;
mod faults;
mod law;
mod literals;
mod maps;
mod names;
mod numbers;
mod operators;
mod plain_lines;
mod settings;
mod source;
mod symbols;
#[cfg(test)]
mod tests;
mod token;
mod words;

pub use faults::LineFault;
pub use law::{expressions_are_evaluated, values_are_of_expressions};
pub use source::{DialectFault, PlainSource, plain_source};
