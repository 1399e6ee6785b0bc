ghost use Rattle.operation_laws.specs.Leaves.{BranchesPlainly, OperationLaw, SkipLaw};
ghost use Rattle.operation_laws.specs.Keeps.{KeepLaw};

/// States what an instruction leaves that is carried out, with neither an exception nor a stop: which registers
/// of all banks it writes and with which words, where it goes, the flags, F, I and the mode, and what it puts
/// on the bus. So it keeps every register that it does not name, and the mode unless it restores another. One
/// whose condition fails changes R15 alone. Branches always end so. The function does nothing.
pub fn operation_leaves()
    ensures operation { OperationLaw }
    ensures keeps { KeepLaw }
    ensures skip { SkipLaw }
    ensures plain { BranchesPlainly }
{}
