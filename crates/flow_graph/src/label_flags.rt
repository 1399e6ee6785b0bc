ghost use Rattle.std.specs.Prelude.{◌≡◌, ◌≢◌, IfSome, IsNone};
ghost use Rattle.flow_graph.specs.StepLaw.{label_by};

use arm2_decode::{Cond, Flags, holds};
use control_flow::Label;

// Each condition but AL and NV holds by one of these three and fails by another.
const NONE_SET: Flags = Flags {
    negative: false,
    zero: false,
    carry: false,
    overflow: false,
};

const ALL_SET: Flags = Flags {
    negative: true,
    zero: true,
    carry: true,
    overflow: true,
};

const N_AND_C_SET: Flags = Flags {
    negative: true,
    zero: false,
    carry: true,
    overflow: false,
};

fn label_by(flags: Flags, cond: Cond) -> Label
    ensures { result ≡ label_by flags cond }
{
    if holds(cond, flags) {
        Label::Do
    } else {
        Label::Skip
    }
}

/// Flags by which an instruction of the condition is done or passed over, as the label says. There are none
/// to do one of NV, and none to pass over one of AL.
pub fn flags_for(cond: Cond, label: Label) -> Option<Flags>
    ensures flags { IfSome result (λ f. label_by f cond ≡ label) }
    ensures none { IsNone result → (f : Flags) → label_by f cond ≢ label }
{
    if label_by(NONE_SET, cond) == label {
        return Some(NONE_SET);
    }
    if label_by(ALL_SET, cond) == label {
        return Some(ALL_SET);
    }
    if label_by(N_AND_C_SET, cond) == label {
        return Some(N_AND_C_SET);
    }
    None
}
