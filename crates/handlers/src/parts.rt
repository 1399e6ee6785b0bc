//! Faults of the parts as a report's: lack of memory is one for all.

ghost use Rattle.std.specs.Prelude.{◌≡◌};
ghost use Rattle.handlers.specs.declared.fault.ReportFault.TheVariants.{Memory};
ghost use Rattle.handlers.specs.Faults.{of_cert, of_dialect, of_given, of_graph, of_load, of_loops};
ghost use Rattle.handlers.specs.Faults.{of_machine_file};
ghost use Rattle.handlers.specs.Faults.{of_profile, of_source, of_statement, of_text, of_walk};

use crate::fault::ReportFault;
use arm2_exec::MachineFault;
use assembler::AsmFault;
use cert_check::CheckFault;
use certificate::CertFault;
use control_flow::BuildFault;
use debugger::DebugFault;
use given_facts::GivenFault;
use loader::LoadFault;
use longest_walk::WalkFault;
use loop_bounds::NestFault;
use machine_file::{MachineFileFault, ProfileFileFault};
use objasm::DialectFault;
use sources::SourceFault;
use statement::StatementFault;
use std::alloc::AllocError;

impl From<AllocError> for ReportFault {
    ghost from_gives = { λ _ fault. fault ≡ Memory };

    fn from(_refused: AllocError) -> ReportFault {
        ReportFault::Memory
    }
}

impl From<SourceFault> for ReportFault {
    ghost from_gives = { λ lower fault. fault ≡ of_source lower };

    fn from(lower: SourceFault) -> ReportFault {
        match lower {
            SourceFault::Memory => ReportFault::Memory,
            SourceFault::Text(fault) => ReportFault::Source(fault),
            SourceFault::Image(fault) => ReportFault::Image(fault),
            SourceFault::Dialect(fault) => ReportFault::Dialect(fault),
        }
    }
}

impl From<AsmFault> for ReportFault {
    ghost from_gives = { λ lower fault. fault ≡ of_text lower };

    fn from(lower: AsmFault) -> ReportFault {
        match lower {
            AsmFault::Memory => ReportFault::Memory,
            _ => ReportFault::Source(lower),
        }
    }
}

impl From<StatementFault> for ReportFault {
    ghost from_gives = { λ lower fault. fault ≡ of_statement lower };

    fn from(lower: StatementFault) -> ReportFault {
        match lower {
            StatementFault::Memory => ReportFault::Memory,
            _ => ReportFault::Statement(lower),
        }
    }
}

impl From<BuildFault> for ReportFault {
    ghost from_gives = { λ lower fault. fault ≡ of_graph lower };

    fn from(lower: BuildFault) -> ReportFault {
        match lower {
            BuildFault::Memory => ReportFault::Memory,
            _ => ReportFault::Graph(lower),
        }
    }
}

impl From<NestFault> for ReportFault {
    ghost from_gives = { λ lower fault. fault ≡ of_loops lower };

    fn from(lower: NestFault) -> ReportFault {
        match lower {
            NestFault::Memory => ReportFault::Memory,
            _ => ReportFault::Loops(lower),
        }
    }
}

impl From<WalkFault> for ReportFault {
    ghost from_gives = { λ lower fault. fault ≡ of_walk lower };

    fn from(lower: WalkFault) -> ReportFault {
        match lower {
            WalkFault::Memory => ReportFault::Memory,
            _ => ReportFault::Walk(lower),
        }
    }
}

impl From<CertFault> for ReportFault {
    ghost from_gives = { λ lower fault. fault ≡ of_cert lower };

    fn from(lower: CertFault) -> ReportFault {
        match lower {
            CertFault::Memory => ReportFault::Memory,
            _ => ReportFault::Cert(lower),
        }
    }
}

impl From<CheckFault> for ReportFault {
    ghost from_gives = { λ _ fault. fault ≡ Memory };

    fn from(_lower: CheckFault) -> ReportFault {
        ReportFault::Memory
    }
}

impl From<MachineFileFault> for ReportFault {
    ghost from_gives = { λ lower fault. fault ≡ of_machine_file lower };

    fn from(lower: MachineFileFault) -> ReportFault {
        match lower {
            MachineFileFault::Memory => ReportFault::Memory,
            _ => ReportFault::MachineFile(lower),
        }
    }
}

impl From<LoadFault> for ReportFault {
    ghost from_gives = { λ lower fault. fault ≡ of_load lower };

    fn from(lower: LoadFault) -> ReportFault {
        match lower {
            LoadFault::Memory => ReportFault::Memory,
            _ => ReportFault::Load(lower),
        }
    }
}

impl From<ProfileFileFault> for ReportFault {
    ghost from_gives = { λ lower fault. fault ≡ of_profile lower };

    fn from(lower: ProfileFileFault) -> ReportFault {
        match lower {
            ProfileFileFault::Memory => ReportFault::Memory,
            _ => ReportFault::Profile(lower),
        }
    }
}

impl From<GivenFault> for ReportFault {
    ghost from_gives = { λ lower fault. fault ≡ of_given lower };

    fn from(lower: GivenFault) -> ReportFault {
        match lower {
            GivenFault::Memory => ReportFault::Memory,
            _ => ReportFault::Given(lower),
        }
    }
}

impl From<DialectFault> for ReportFault {
    ghost from_gives = { λ lower fault. fault ≡ of_dialect lower };

    fn from(lower: DialectFault) -> ReportFault {
        match lower {
            DialectFault::Memory => ReportFault::Memory,
            _ => ReportFault::Dialect(lower),
        }
    }
}

impl From<MachineFault> for ReportFault {
    ghost from_gives = { λ _ fault. fault ≡ Memory };

    fn from(_lower: MachineFault) -> ReportFault {
        ReportFault::Memory
    }
}

impl From<DebugFault> for ReportFault {
    ghost from_gives = { λ _ fault. fault ≡ Memory };

    // A whole session has no other fault.
    fn from(_lower: DebugFault) -> ReportFault {
        ReportFault::Memory
    }
}
