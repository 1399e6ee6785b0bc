//! The line of a refusal. It takes no memory, of which there may be none left.

ghost use Rattle.std.specs.Prelude.{◌≡◌, ◌++◌};
ghost use Rattle.outputs.specs.OnTheWay.{Adds};
ghost use Rattle.handlers.specs.FaultText.{TakesOrFails, cert_fault_place, dialect_fault_place};
ghost use Rattle.handlers.specs.FaultText.{fault_place};
ghost use Rattle.handlers.specs.FaultText.{graph_fault_place, place_text, refusal_line};
ghost use Rattle.handlers.specs.FaultText.{source_fault_place};

use crate::fault::ReportFault;
use asm_text::hex;
use assembler::AsmFault;
use certificate::CertFault;
use control_flow::BuildFault;
use itoa::Buffer;
use objasm::DialectFault;
use outputs::{Output, Page};

/// Where a fault is.
#[derive(Clone, Copy, Debug, PartialEq, Eq)]
pub enum FaultPlace {
    /// It has no place, or none that is told.
    Nowhere,
    /// A line of a text, by its number from 1.
    TextLine(usize),
    /// A word's address, in bytes.
    Address(u32),
}

fn source_fault_place(fault: AsmFault) -> FaultPlace
    ensures { result ≡ source_fault_place fault }
{
    match fault {
        AsmFault::Memory => FaultPlace::Nowhere,
        AsmFault::Line(_, line) => FaultPlace::TextLine(line),
    }
}

fn graph_fault_place(fault: BuildFault) -> FaultPlace
    ensures { result ≡ graph_fault_place fault }
{
    match fault {
        BuildFault::OutsideImage(address) => FaultPlace::Address(address),
        BuildFault::UnallocatedWord(address) => FaultPlace::Address(address),
        BuildFault::TrapInHandler(address) => FaultPlace::Address(address),
        BuildFault::TargetNotWriter(address) => FaultPlace::Address(address),
        BuildFault::UnstatedTarget(address) => FaultPlace::Address(address),
        BuildFault::Memory | BuildFault::TooDeep | BuildFault::TooManyPlaces => FaultPlace::Nowhere,
    }
}

fn cert_fault_place(fault: CertFault) -> FaultPlace
    ensures { result ≡ cert_fault_place fault }
{
    match fault {
        CertFault::BadLine(line) => FaultPlace::TextLine(line),
        CertFault::Memory | CertFault::Truncated | CertFault::TrailingBytes => FaultPlace::Nowhere,
    }
}

fn dialect_fault_place(fault: DialectFault) -> FaultPlace
    ensures { result ≡ dialect_fault_place fault }
{
    match fault {
        DialectFault::Memory => FaultPlace::Nowhere,
        DialectFault::Line(_, line) => FaultPlace::TextLine(line),
    }
}

/// Where a fault is, as a refusal's line says it.
pub fn fault_place(fault: ReportFault) -> FaultPlace
    ensures { result ≡ fault_place fault }
{
    match fault {
        ReportFault::Source(fault) => source_fault_place(fault),
        ReportFault::Graph(fault) => graph_fault_place(fault),
        ReportFault::Cert(fault) => cert_fault_place(fault),
        ReportFault::NotFree(address) => FaultPlace::Address(address),
        ReportFault::WordsMeet(address) => FaultPlace::Address(address),
        ReportFault::Dialect(fault) => dialect_fault_place(fault),
        _ => FaultPlace::Nowhere,
    }
}

fn put_place<O: Output>(page: &mut Page, place: FaultPlace, out: &mut O)
    ensures { Adds O.taken O.failures out.old page.old out.new page.new (place_text place) }
{
    match place {
        FaultPlace::Nowhere => page.put(out, b""),
        FaultPlace::TextLine(line) => {
            page.put(out, b" at line ");
            page.put(out, Buffer::new().format(line).as_bytes());
        }
        FaultPlace::Address(address) => {
            page.put(out, b" at ");
            page.put(out, hex(u64::from(address)).as_slice());
        }
    }
}

fn put_refusal_line<O: Output>(page: &mut Page, name: &[u8], place: FaultPlace, out: &mut O)
    ensures { Adds O.taken O.failures out.old page.old out.new page.new
        (refusal_line (name.now ++ place_text place)) }
{
    page.put(out, b"refused: ");
    page.put(out, name);
    put_place(page, place, out);
    page.put(out, b"\n");
}

/// Writes the line of a refusal: `refused: `, the fault's name, ` at line ` and the line's number in decimal
/// or ` at ` and the address in hexadecimal, and a line feed. If the output fails, it took a front of the
/// line.
pub fn print_refusal_line<O: Output>(name: &[u8], place: FaultPlace, out: &mut O)
    ensures { TakesOrFails O.taken O.failures out.old out.new
        (refusal_line (name.now ++ place_text place)) }
{
    let mut page = Page::new();
    put_refusal_line(&mut page, name, place, out);
    let _ = page.finish(out);
}
