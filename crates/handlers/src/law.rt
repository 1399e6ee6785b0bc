ghost use Rattle.handlers.specs.Visits.{ApartIsTakenEvery, VisitedIsTakenEvery};

/// Where any two steps that take FIQ, one after the other, begin at least so many ticks apart, FIQ is taken
/// at most once in so many ticks, for however long it may have waited. The call does nothing.
pub fn apart_is_taken_every()
    ensures { ApartIsTakenEvery }
{}

/// A run that keeps two statements, with two visits of FIQ's handler, takes FIQ at most once in so many
/// ticks, where it may have waited for as many. The call does nothing.
pub fn visited_is_taken_every()
    ensures { VisitedIsTakenEvery }
{}
