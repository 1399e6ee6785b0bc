//! Handlers by their sources and statements, and what is built of them.

use assembler::{Assembly, assemble};
use bus_ticks::Profile;
use flow_graph::{Graph, Statement, build, read_statement};
use loader::Image;
use std::alloc::Global;
use std::test::Fail;

/// A handler's image and its statement.
#[derive(Drop)]
pub(crate) struct Handler {
    pub(crate) image: Image,
    pub(crate) statement: Statement,
}

fn statement_of(alloc: Global, said: &Assembly, statement: &[u8]) -> Result<Statement, Fail> {
    Ok(read_statement(alloc, statement, &said.labels)?)
}

/// The handler of a source and a statement.
pub(crate) fn stated(alloc: Global, source: &[u8], statement: &[u8]) -> Result<Handler, Fail> {
    let said = assemble(alloc, source)?;
    match statement_of(alloc, &said, statement) {
        Ok(statement) => Ok(Handler {
            image: said.image,
            statement,
        }),
        Err(fault) => {
            drop(said);
            Err(fault)
        }
    }
}

/// The flow graph, by the first profile.
pub(crate) fn graph_of(alloc: Global, handler: &Handler) -> Result<Graph, Fail> {
    Ok(build(alloc, &handler.image, &handler.statement, &Profile::one())?)
}
