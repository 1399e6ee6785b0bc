use assembler::AsmFault;
use certificate::CertFault;
use control_flow::BuildFault;
use given_facts::GivenFault;
use image::ReadFault;
use loader::LoadFault;
use longest_walk::WalkFault;
use loop_bounds::NestFault;
use machine_file::{MachineFileFault, ProfileFileFault};
use objasm::DialectFault;
use statement::StatementFault;
use thiserror::Error;

/// Why there is no report and no verdict. A failed allocation is always `Memory`, never inside another
/// variant.
#[derive(Clone, Copy, Debug, PartialEq, Eq, Drop, Error)]
pub enum ReportFault {
    /// An allocation failed.
    #[error("Memory")]
    Memory,
    /// The source cannot be assembled.
    #[error("{0}")]
    Source(AsmFault),
    /// The source's bytes are no image.
    #[error("{0}")]
    Image(ReadFault),
    /// The statement cannot be read.
    #[error("{0}")]
    Statement(StatementFault),
    /// The handler has no flow graph.
    #[error("{0}")]
    Graph(BuildFault),
    /// The loops of the flow graph and their bounds do not fit each other: a cycle without a bound, loops
    /// that cross, an entry past a header, or more than 16 deep.
    #[error("{0}")]
    Loops(NestFault),
    /// No complete walk keeps the bounds, or some walk costs 2^63 ticks or more.
    #[error("{0}")]
    Walk(WalkFault),
    /// The machine file cannot be read.
    #[error("{0}")]
    MachineFile(MachineFileFault),
    /// The image does not fit the machine.
    #[error("{0}")]
    Load(LoadFault),
    /// The text is no certificate.
    #[error("{0}")]
    Cert(CertFault),
    /// The output failed.
    #[error("Device")]
    Device,
    /// The cycle profile file cannot be read.
    #[error("{0}")]
    Profile(ProfileFileFault),
    /// The statement of FIQ's handler has another entry than FIQ's vector, 1C.
    #[error("NotFiqEntry")]
    NotFiqEntry,
    /// The flow graph has no edge of the number.
    #[error("NoSuchEdge")]
    NoSuchEdge,
    /// The edge is not free; it leaves the address, in bytes.
    #[error("NotFree at {0:X}")]
    NotFree(u32),
    /// The word is no label of the source, and no address.
    #[error("NoSuchEntry")]
    NoSuchEntry,
    /// The statement's entry is the vector of no interrupt: neither FIQ's, 1C, nor IRQ's, 18.
    #[error("NotVector")]
    NotVector,
    /// No walk of the handler comes to the address.
    #[error("NotReached")]
    NotReached,
    /// Two sources that are loaded at the same time both have a word at the address, in bytes; it is the
    /// least such.
    #[error("WordsMeet at {0:X}")]
    WordsMeet(u32),
    /// The file of facts cannot be read.
    #[error("{0}")]
    Given(GivenFault),
    /// The source is in ObjAsm's dialect and cannot be translated.
    #[error("{0}")]
    Dialect(DialectFault),
}
