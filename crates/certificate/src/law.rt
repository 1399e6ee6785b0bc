ghost use Rattle.std.specs.Prelude.{◌≡◌};
ghost use Rattle.control_flow.specs.Flow.{Flow, IsWellFormed};
ghost use Rattle.loop_bounds.specs.Tree.{IsTree, Tree};
ghost use Rattle.longest_walk.specs.declared.folded.Longest.{Longest};
ghost use Rattle.longest_walk.specs.Longest.{IsLongest};
ghost use Rattle.certificate.specs.Lines.{CanSpell, Said, cert_text, said_of};

/// States that a text is the certificate of one content: what can be spelled has a text of its own. It does
/// nothing.
///
/// With the contracts of `write_cert` and `read_cert`, the text of a greatest walk is read back as a
/// certificate of the same profile, bound, lines of the walk, places and instances.
#[tactic(auto, using(crate::proofs::FaultLaws::one_cert))]
pub fn one_text_each()
    ensures { (c d : Said) → CanSpell c → CanSpell d → cert_text c ≡ cert_text d → c ≡ d }
{}

/// States that what the certificate of a greatest walk says can be spelled. It does nothing.
///
/// So the text that `write_cert` writes of it is read by `read_cert`, unless memory runs out, and says the
/// same.
pub fn longest_can_be_spelled()
    ensures { (flow : Flow) (tree : Tree) (l : Longest) → IsWellFormed flow → IsTree flow tree
        → IsLongest flow tree l → CanSpell (said_of l) }
{}
