use crate::trial::Answer;
use arcwcet::ReportFault;
use assembler::{AsmFault, Assembly, assemble};
use flow_graph::{Loop, Statement, StatementFault, read_statement};
use samples::nested_countdown::{SOURCE, STATEMENT};
use std::alloc::Global;

/// A call that reads a source or a statement, and changes none.
#[derive(Clone, Copy)]
pub(crate) enum SourceCall {
    Assemble,
    ReadStatement,
}

fn is_nested(said: &Assembly) -> bool {
    let addresses = [said.labels.get(b"start"), said.labels.get(b"back")];
    said.image.words() == 7
        && said.image.word_at(0x8018) == Some(0xE25E_F004)
        && addresses == [Some(0x8000), Some(0x8014)]
}

fn assembled(alloc: Global) -> Answer {
    match assemble(alloc, SOURCE) {
        Ok(said) => Answer::of_value(is_nested(&said), said),
        Err(AsmFault::Memory) => Answer::Refused,
        Err(_) => Answer::Wrong,
    }
}

fn states_nested(statement: &Statement) -> bool {
    let outer = Loop {
        header: 0x8004,
        first: 0x8004,
        last: 0x8014,
        bound: 1,
    };
    let inner = Loop {
        header: 0x8008,
        first: 0x8008,
        last: 0x800C,
        bound: 2,
    };
    statement.entry() == 0x8000 && statement.loops().list() == [outer, inner].as_slice()
}

fn stated(alloc: Global) -> Result<Answer, ReportFault> {
    let said = assemble(alloc, SOURCE)?;
    let answer = match read_statement(alloc, STATEMENT, &said.labels) {
        Ok(statement) => Answer::of_value(states_nested(&statement), statement),
        Err(StatementFault::Memory) => Answer::Refused,
        Err(_) => Answer::Wrong,
    };
    drop(said);
    Ok(answer)
}

impl SourceCall {
    /// Makes the call, and answers what it did.
    pub(crate) fn made(self, alloc: Global) -> Result<Answer, ReportFault> {
        match self {
            SourceCall::Assemble => Ok(assembled(alloc)),
            SourceCall::ReadStatement => stated(alloc),
        }
    }
}
