ghost use Rattle.std.specs.Prelude.{◌≡◌};
ghost use Rattle.handlers.specs.FaultNames.{cert_fault_name, dialect_fault_name, fault_name};
ghost use Rattle.handlers.specs.FaultNames.{given_fault_name};
ghost use Rattle.handlers.specs.FaultNames.{graph_fault_name};
ghost use Rattle.handlers.specs.FaultNames.{image_fault_name, load_fault_name};
ghost use Rattle.handlers.specs.FaultNames.{loops_fault_name, machine_file_fault_name};
ghost use Rattle.handlers.specs.FaultNames.{profile_fault_name, source_fault_name};
ghost use Rattle.handlers.specs.FaultNames.{statement_fault_name, walk_fault_name};

use crate::fault::ReportFault;
use assembler::AsmFault;
use certificate::CertFault;
use control_flow::BuildFault;
use given_facts::GivenFault;
use image::ReadFault;
use loader::LoadFault;
use longest_walk::WalkFault;
use loop_bounds::NestFault;
use machine_file::{MachineFileFault, ProfileFileFault};
use objasm::DialectFault;
use statement::StatementFault;

fn source_fault_name(fault: AsmFault) -> &'static [u8]
    ensures { result.now ≡ source_fault_name fault }
{
    match fault {
        AsmFault::Memory => b"Memory",
        AsmFault::Line(fault, _) => fault.name(),
    }
}

fn image_fault_name(fault: ReadFault) -> &'static [u8]
    ensures { result.now ≡ image_fault_name fault }
{
    match fault {
        ReadFault::Memory => b"Memory",
        ReadFault::BadMagic => b"BadMagic",
        ReadFault::Truncated => b"Truncated",
        ReadFault::Overlap => b"Overlap",
        ReadFault::Misaligned => b"Misaligned",
        ReadFault::TrailingBytes => b"TrailingBytes",
        ReadFault::OutOfRange => b"OutOfRange",
    }
}

fn statement_fault_name(fault: StatementFault) -> &'static [u8]
    ensures { result.now ≡ statement_fault_name fault }
{
    match fault {
        StatementFault::Memory => b"Memory",
        StatementFault::NotToml => b"NotToml",
        StatementFault::UnknownKey => b"UnknownKey",
        StatementFault::WrongKind => b"WrongKind",
        StatementFault::UnknownLabel => b"UnknownLabel",
        StatementFault::OutOfRange => b"OutOfRange",
        StatementFault::Twice => b"Twice",
    }
}

fn graph_fault_name(fault: BuildFault) -> &'static [u8]
    ensures { result.now ≡ graph_fault_name fault }
{
    match fault {
        BuildFault::Memory => b"Memory",
        BuildFault::OutsideImage(_) => b"OutsideImage",
        BuildFault::UnallocatedWord(_) => b"UnallocatedWord",
        BuildFault::TrapInHandler(_) => b"TrapInHandler",
        BuildFault::TooDeep => b"TooDeep",
        BuildFault::TooManyPlaces => b"TooManyPlaces",
        BuildFault::TargetNotWriter(_) => b"TargetNotWriter",
        BuildFault::UnstatedTarget(_) => b"UnstatedTarget",
    }
}

fn loops_fault_name(fault: NestFault) -> &'static [u8]
    ensures { result.now ≡ loops_fault_name fault }
{
    match fault {
        NestFault::Memory => b"Memory",
        NestFault::LoopsCross => b"LoopsCross",
        NestFault::SharedHeader => b"SharedHeader",
        NestFault::EntersMidLoop => b"EntersMidLoop",
        NestFault::UnboundedCycle => b"UnboundedCycle",
        NestFault::NestedTooDeep => b"NestedTooDeep",
    }
}

fn walk_fault_name(fault: WalkFault) -> &'static [u8]
    ensures { result.now ≡ walk_fault_name fault }
{
    match fault {
        WalkFault::Memory => b"Memory",
        WalkFault::NoCompleteWalk => b"NoCompleteWalk",
        WalkFault::BoundTooLarge => b"BoundTooLarge",
    }
}

fn machine_file_fault_name(fault: MachineFileFault) -> &'static [u8]
    ensures { result.now ≡ machine_file_fault_name fault }
{
    match fault {
        MachineFileFault::Memory => b"Memory",
        MachineFileFault::NotToml => b"NotToml",
        MachineFileFault::UnknownKey => b"UnknownKey",
        MachineFileFault::WrongKind => b"WrongKind",
        MachineFileFault::OutOfRange => b"OutOfRange",
        MachineFileFault::Twice => b"Twice",
    }
}

fn load_fault_name(fault: LoadFault) -> &'static [u8]
    ensures { result.now ≡ load_fault_name fault }
{
    match fault {
        LoadFault::Memory => b"Memory",
        LoadFault::NoPage => b"NoPage",
    }
}

fn cert_fault_name(fault: CertFault) -> &'static [u8]
    ensures { result.now ≡ cert_fault_name fault }
{
    match fault {
        CertFault::Memory => b"Memory",
        CertFault::BadLine(_) => b"BadLine",
        CertFault::Truncated => b"Truncated",
        CertFault::TrailingBytes => b"TrailingBytes",
    }
}

fn profile_fault_name(fault: ProfileFileFault) -> &'static [u8]
    ensures { result.now ≡ profile_fault_name fault }
{
    match fault {
        ProfileFileFault::Memory => b"Memory",
        ProfileFileFault::NotToml => b"NotToml",
        ProfileFileFault::UnknownKey => b"UnknownKey",
        ProfileFileFault::WrongKind => b"WrongKind",
        ProfileFileFault::OutOfRange => b"OutOfRange",
        ProfileFileFault::Disordered => b"Disordered",
    }
}

fn given_fault_name(fault: GivenFault) -> &'static [u8]
    ensures { result.now ≡ given_fault_name fault }
{
    match fault {
        GivenFault::Memory => b"Memory",
        GivenFault::NotToml => b"NotToml",
        GivenFault::UnknownKey => b"UnknownKey",
        GivenFault::WrongKind => b"WrongKind",
        GivenFault::OutOfRange => b"OutOfRange",
        GivenFault::Twice => b"Twice",
    }
}

fn dialect_fault_name(fault: DialectFault) -> &'static [u8]
    ensures { result.now ≡ dialect_fault_name fault }
{
    match fault {
        DialectFault::Memory => b"Memory",
        DialectFault::Line(fault, _) => fault.name(),
    }
}

/// The name of a fault, as a refusal's line has it.
pub fn fault_name(fault: ReportFault) -> &'static [u8]
    ensures { result.now ≡ fault_name fault }
{
    match fault {
        ReportFault::Memory => b"Memory",
        ReportFault::Source(fault) => source_fault_name(fault),
        ReportFault::Image(fault) => image_fault_name(fault),
        ReportFault::Statement(fault) => statement_fault_name(fault),
        ReportFault::Graph(fault) => graph_fault_name(fault),
        ReportFault::Loops(fault) => loops_fault_name(fault),
        ReportFault::Walk(fault) => walk_fault_name(fault),
        ReportFault::MachineFile(fault) => machine_file_fault_name(fault),
        ReportFault::Load(fault) => load_fault_name(fault),
        ReportFault::Cert(fault) => cert_fault_name(fault),
        ReportFault::Device => b"Device",
        ReportFault::Profile(fault) => profile_fault_name(fault),
        ReportFault::NotFiqEntry => b"NotFiqEntry",
        ReportFault::NoSuchEdge => b"NoSuchEdge",
        ReportFault::NotFree(_) => b"NotFree",
        ReportFault::NoSuchEntry => b"NoSuchEntry",
        ReportFault::NotVector => b"NotVector",
        ReportFault::NotReached => b"NotReached",
        ReportFault::WordsMeet(_) => b"WordsMeet",
        ReportFault::Given(fault) => given_fault_name(fault),
        ReportFault::Dialect(fault) => dialect_fault_name(fault),
    }
}
