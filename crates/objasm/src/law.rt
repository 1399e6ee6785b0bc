ghost use Rattle.objasm.specs.Laws.{ExpressionsAreEvaluated, ValuesAreOfExpressions};

/// States what symbols are read to: the value of any expression that they spell, and nothing where they spell
/// none. It does nothing.
pub fn expressions_are_evaluated()
    ensures { ExpressionsAreEvaluated }
{}

/// States that operands have the value of the expression that they are, and none where they are none. It does
/// nothing.
pub fn values_are_of_expressions()
    ensures { ValuesAreOfExpressions }
{}
