use crate::analysis::{HandlerCall, Stated, graph_of, on_nested, walk_of};
use crate::trial::Answer;
use arcwcet::ReportFault;
use cert_check::{CheckFault, Verdict, check};
use certificate::{Cert, CertFault, read_cert, write_cert};
use flow_graph::Graph;
use longest_walk::Longest;
use loop_bounds::nest;
use samples::nested_countdown::CERTIFICATE;
use std::alloc::Global;

/// A call on the certificate of the nested countdown. None changes a value.
#[derive(Clone, Copy)]
pub(crate) enum CertificateCall {
    Write,
    Read,
    Check,
}

fn found(alloc: Global, handler: &Stated) -> Result<Longest, ReportFault> {
    let graph = graph_of(alloc, handler)?;
    let found = walk_of(alloc, handler, &graph);
    drop(graph);
    found
}

fn written(alloc: Global, handler: &Stated) -> Result<Answer, ReportFault> {
    let found = found(alloc, handler)?;
    let answer = match write_cert(alloc, &found) {
        Ok(text) => Answer::of(text.as_slice() == CERTIFICATE),
        Err(CertFault::Memory) => Answer::Refused,
        Err(_) => Answer::Wrong,
    };
    drop(found);
    Ok(answer)
}

fn is_nested(cert: &Cert) -> bool {
    let lengths = [
        cert.walk.items().len(),
        cert.places.items().len(),
        cert.instances.items().len(),
    ];
    cert.bound == 50 && lengths == [9, 7, 2]
}

fn read(alloc: Global) -> Answer {
    match read_cert(alloc, CERTIFICATE) {
        Ok(cert) => Answer::of_value(is_nested(&cert), cert),
        Err(CertFault::Memory) => Answer::Refused,
        Err(_) => Answer::Wrong,
    }
}

fn checked_on(alloc: Global, handler: &Stated, graph: &Graph) -> Result<Answer, ReportFault> {
    let tree = nest(alloc, graph, &handler.statement)?;
    let answer = match read_cert(alloc, CERTIFICATE) {
        Ok(cert) => {
            let verdict = check(alloc, graph, &tree, &cert);
            drop(cert);
            Ok(match verdict {
                Ok(verdict) => Answer::of(verdict == Verdict::Yes),
                Err(CheckFault::Memory) => Answer::Refused,
            })
        }
        Err(fault) => Err(fault.into()),
    };
    drop(tree);
    answer
}

fn checked(alloc: Global, handler: &Stated) -> Result<Answer, ReportFault> {
    let graph = graph_of(alloc, handler)?;
    let answer = checked_on(alloc, handler, &graph);
    drop(graph);
    answer
}

impl HandlerCall for CertificateCall {
    fn on(self, alloc: Global, handler: &Stated) -> Result<Answer, ReportFault> {
        match self {
            CertificateCall::Check => checked(alloc, handler),
            _ => written(alloc, handler),
        }
    }
}

impl CertificateCall {
    /// Makes the call, and answers what it did.
    pub(crate) fn made(self, alloc: Global) -> Result<Answer, ReportFault> {
        match self {
            CertificateCall::Read => Ok(read(alloc)),
            CertificateCall::Write | CertificateCall::Check => on_nested(alloc, self),
        }
    }
}
