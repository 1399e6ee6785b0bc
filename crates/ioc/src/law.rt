ghost use Rattle.ioc.specs.Law.{TicksAddUp};

/// States that one [`advance`](crate::Ioc::advance) by `a + b` ticks leaves what two leave, by `a` and by
/// `b`; it does nothing.
pub fn ticks_add_up()
    ensures { TicksAddUp }
{}
