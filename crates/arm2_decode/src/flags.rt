ghost use Rattle.std.specs.Prelude.{◌≡◌};
ghost use Rattle.arm2_decode.specs.Conditions.{condition_holds};

use crate::names::Cond;

/// The four condition flags of the PSR.
#[derive(Clone, Copy, Debug, PartialEq, Eq)]
pub struct Flags {
    /// N.
    pub negative: bool,
    /// Z.
    pub zero: bool,
    /// C.
    pub carry: bool,
    /// V.
    pub overflow: bool,
}

macro_rules! condition {
    ($cond:expr; $($($name:ident)|+ => $test:expr),+ $(,)?) => {
        match $cond {
            $($(Cond::$name)|+ => $test,)+
        }
    };
}

/// Whether an instruction of the condition is carried out with these flags.
pub fn holds(cond: Cond, flags: Flags) -> bool
    ensures { result ≡ condition_holds cond flags }
{
    let signed_order = flags.negative == flags.overflow;
    condition!(cond;
        Eq => flags.zero,
        Ne => !flags.zero,
        Cs => flags.carry,
        Cc => !flags.carry,
        Mi => flags.negative,
        Pl => !flags.negative,
        Vs => flags.overflow,
        Vc => !flags.overflow,
        Hi => flags.carry && !flags.zero,
        Ls => !flags.carry || flags.zero,
        Ge => signed_order,
        Lt => !signed_order,
        Gt => !flags.zero && signed_order,
        Le => flags.zero || !signed_order,
        Al => true,
        Nv => false,
    )
}
