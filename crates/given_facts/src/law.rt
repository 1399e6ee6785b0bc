ghost use Rattle.std.specs.Prelude.{◌≡◌, ◌↔◌, List, Ok, Err};
ghost use Rattle.known_words.specs.declared.given.Given.{Given};
ghost use Rattle.toml.specs.Data.{Members};
ghost use Rattle.toml_reading.specs.Lowest.{IsLowest};
ghost use Rattle.given_facts.specs.GivenFaults.{given_faults};
ghost use Rattle.given_facts.specs.GivenFile.{facts_in};
ghost use Rattle.given_facts.specs.GivenPlaces.{HasGivenFault};
ghost use Rattle.given_facts.specs.GivenRules.{StatesFacts};

use crate::faults::GivenFault;

/// States which facts [`read_facts`](crate::facts::read_facts) returns for a document: those that it states,
/// key by key; or the lowest of all faults that it has at its spots, as
/// [`has_fault_at`](crate::GivenDocument::has_fault_at) says. It does nothing.
pub fn facts_are_read()
    ensures facts { (ms : Members) → (facts : List Given) → facts_in ms ≡ Ok facts
        ↔ StatesFacts ms facts }
    ensures fault { (ms : Members) → (fault : GivenFault) → facts_in ms ≡ Err fault
        ↔ IsLowest given_faults (HasGivenFault ms) fault }
{}
