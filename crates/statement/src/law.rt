ghost use Rattle.std.specs.Prelude.{◌≡◌, ◌↔◌, ◌≤◌, ℕ, true, List, Ok, Err};
ghost use Rattle.toml.specs.Data.{Members};
ghost use Rattle.toml_reading.specs.Lowest.{IsLowest};
ghost use Rattle.statement.specs.Places.{IsFaultAt};
ghost use Rattle.statement.specs.StatementRules.{HasFault, States};
ghost use Rattle.statement.specs.Stated.{IsLoop, IsStated, Stated, is_apart, lies_within};
ghost use Rattle.image.specs.Labels.{Names};
ghost use Rattle.statement.specs.Statement.{statement_of};
ghost use Rattle.statement.specs.StatementFaults.{statement_faults};
ghost use Rattle.statement.specs.declared.apart.ApartStretch.{ApartStretch};
ghost use Rattle.statement.specs.declared.spots.Spot.{Spot};
ghost use Rattle.statement.specs.declared.stated.Loop.{Loop};

use crate::faults::StatementFault;
use crate::stated::Statement;

/// States what [`read_statement`](crate::reading::read_statement) returns for a document: the statement that
/// it states, for each that states one; or the lowest of all the faults that it has. It does nothing.
pub fn statements_are_read()
    ensures stated { (names : Names) → (ms : Members) → (st : Stated) → statement_of names ms ≡ Ok st
        ↔ States names ms st }
    ensures refused { (names : Names) → (ms : Members) → (fault : StatementFault)
        → statement_of names ms ≡ Err fault ↔ IsLowest statement_faults (HasFault names ms) fault }
{}

/// States that a document has a fault exactly where one of its spots has it, as
/// [`has_fault_at`](crate::Document::has_fault_at) says. It does nothing.
pub fn faults_have_spots()
    ensures { (names : Names) → (ms : Members) → (fault : StatementFault) → HasFault names ms fault
        ↔ ((spot : Spot) × IsFaultAt names ms spot fault) }
{}

/// States which words lie within a loop of a statement, where words lie for loops: those from its first
/// address to its last that are apart exactly where its first word is. It does nothing.
pub fn words_lie_by_address()
    ensures { (apart : List ApartStretch) → (l : Loop) → IsLoop apart l → (a : ℕ)
        → lies_within apart l.first a l.last ≡ true
        ↔ ((l.first ≤ a) × (a ≤ l.last) × (is_apart apart a ≡ is_apart apart l.first)) }
{}

/// States that each statement is within the limits of statements, as a text of it would have to be. It does
/// nothing.
pub fn statements_are_stated(statement: &Statement)
    ensures { IsStated statement.now }
{
    let _entry = statement.entry;
}
