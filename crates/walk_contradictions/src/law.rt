ghost use Rattle.walk_contradictions.specs.NotTaken.{ContradictionLaw, NamedLaw};

/// States that no run takes a walk on which two words' conditions exclude one another, so none for which
/// [`contradiction_text`](crate::contradiction_text) names a word. A run takes a walk if its steps are the
/// walk's edges, one each and in order, so with neither an exception nor an interrupt on the way. It does
/// nothing.
pub fn contradicted_walks_are_not_taken()
    ensures contradiction { ContradictionLaw }
    ensures named { NamedLaw }
{}
