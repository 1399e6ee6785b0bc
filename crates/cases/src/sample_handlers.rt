//! Judges the sample handlers in `data/handlers/`, each with its source, its statement and its machine file
//! in a folder of its own: a line of its greatest run time, of the checker's verdict on the certificate that
//! says so, and of the ticks of a run from its entry to the address to which it returns. Where FIQ
//! interrupts the handler, the bound is that with as many visits as the run has. `follow` judges the run
//! too, by FIQ's statement as well where there is one: it keeps the statement. The machine file of each free
//! edge of the handler's flow graph is run too, by the first cycle profile and by that of `data/dearer.toml`.
//! A handler fails where a certificate is not accepted, where a run takes more ticks than its bound or stops,
//! where `follow` says other ticks or another end, or where the run of an edge takes more or fewer ticks than
//! the edge costs.

mod followed;
mod judgement;
mod sample;
mod tight;

use arcwcet::HostStore;
use judgement::judge;
use sample::samples;
use std::io;

/// Judges all samples, and answers whether each passed.
pub(crate) fn judge_handlers(rt: &HostRuntime) -> io::Result<bool> {
    let alloc = rt.alloc();
    let mut store = HostStore::new(rt);
    let mut passed = true;
    for sample in samples() {
        let name = sample.folder;
        match judge(alloc, &mut store, sample) {
            Ok(judgement) => {
                println!(rt; "{name}: {judgement}")?;
                passed = passed && judgement.holds();
            }
            Err(fault) => {
                println!(rt; "{name}: {fault}")?;
                passed = false;
            }
        }
    }
    Ok(passed)
}
