ghost use Rattle.vidc.specs.Law.{TicksAddUp};

/// States that one [`advance`](crate::Vidc::advance) by `a + b` ticks leaves what two leave, by `a` and by
/// `b`, and that their flybacks add up; it does nothing.
pub fn ticks_add_up()
    ensures { TicksAddUp }
{}
