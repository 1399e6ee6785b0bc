ghost use Rattle.bus_ticks.specs.declared.profile.Profile.{Profile};
ghost use Rattle.image.specs.Image.{Words};
ghost use Rattle.statement.specs.Stated.{Stated};
ghost use Rattle.control_flow.specs.declared.places.Place.TheVariants.{Exit};
ghost use Rattle.control_flow.specs.Flow.{Flow, HasEdge, IsWellFormed, edge_shape};
ghost use Rattle.control_flow.specs.Graph.{IsFlowGraph};
ghost use Rattle.loop_bounds.specs.Tree.{IsTree, Tree};
ghost use Rattle.walks.specs.Greatest.{IsGreatest};
ghost use Rattle.longest_walk.specs.declared.folded.Longest.{Longest};
ghost use Rattle.longest_walk.specs.Longest.{IsLongest, KeepsTree};
ghost use Rattle.certificate.specs.declared.cert.Cert.{Cert};
ghost use Rattle.certificate.specs.Lines.{said_by, said_of};
ghost use Rattle.cert_check.specs.declared.verdict.Verdict.TheVariants.{Yes};
ghost use Rattle.cert_check.specs.declared.failing.FailingRow.{FailingRow};
ghost use Rattle.cert_check.specs.Failing.{IsFailing, objection_of};
ghost use Rattle.cert_check.specs.Verdict.{IsVerdict, Passes};
ghost use Rattle.std.specs.Prelude.{◌≡◌};

/// States that the verdict Yes on a certificate, whoever wrote it, means that its bound is the greatest cost
/// of a complete walk that keeps the bounds. It does nothing.
#[tactic(auto, using(crate::proofs::YesLemmas::yes_is_greatest))]
pub fn yes_means_greatest()
    ensures { (flow : Flow) (tree : Tree) (cert : Cert) → IsWellFormed flow → IsTree flow tree
        → IsVerdict flow tree cert Yes
        → IsGreatest edge_shape (HasEdge flow) (KeepsTree tree) flow.entry Exit cert.bound }
{}

/// States that the certificate of a greatest walk has the verdict Yes, as it is or once written and read. It
/// does nothing.
pub fn longest_gets_yes()
    ensures { (words : Words) (stated : Stated) (profile : Profile) (flow : Flow) (tree : Tree) (l : Longest)
        (cert : Cert)
        → IsFlowGraph words stated profile flow → IsWellFormed flow → IsTree flow tree
        → IsLongest flow tree l → said_by cert ≡ said_of l → IsVerdict flow tree cert Yes }
{}

/// States that what fails in a certificate, whoever wrote it, does not pass what the check asks for its
/// objection. It does nothing.
#[tactic(auto, using(crate::proofs::FailingLemmas::failing_refutes))]
pub fn failing_row_refutes()
    ensures { (flow : Flow) (tree : Tree) (cert : Cert) (row : FailingRow) → IsFailing flow tree cert row
        → Passes flow tree cert (objection_of row) → ⊥ }
{}
