ghost use Rattle.std.specs.Prelude.{◌≡◌, ◌↔◌, [], Bool, Contains, List, true};
ghost use Rattle.toml.specs.Data.{Members};
ghost use Rattle.image.specs.Labels.{NamedAddresses, address_of};
ghost use Rattle.statement.specs.Places.{IsFaultAt};
ghost use Rattle.statement.specs.StatementRules.{HasFault};
ghost use Rattle.statement.specs.declared.faults.StatementFault.{StatementFault};
ghost use Rattle.statement.specs.declared.spots.Spot.{Spot};
ghost use Rattle.given_facts.specs.GivenPlaces.{IsGivenFaultAt};
ghost use Rattle.given_facts.specs.declared.faults.GivenFault.{GivenFault};
ghost use Rattle.given_facts.specs.declared.spots.GivenSpot.{GivenSpot};
ghost use Rattle.machine_file.specs.MachinePlaces.{IsMachineFaultAt};
ghost use Rattle.machine_file.specs.ProfilePlaces.{IsProfileFaultAt};
ghost use Rattle.machine_file.specs.declared.machine_faults.MachineFileFault.{MachineFileFault};
ghost use Rattle.machine_file.specs.declared.profile_faults.ProfileFileFault.{ProfileFileFault};
ghost use Rattle.machine_file.specs.declared.spots.MachineSpot.{MachineSpot};
ghost use Rattle.machine_file.specs.declared.spots.ProfileSpot.{ProfileSpot};
ghost use Rattle.text_refusals.specs.FileRows.{IsFileRowOf, IsShown, spot_of};
ghost use Rattle.text_refusals.specs.FileTexts.{given_rows, machine_rows, profile_rows};
ghost use Rattle.text_refusals.specs.Outline.{Item, TableKeys, items_of};
ghost use Rattle.text_refusals.specs.Placed.{AreOf, IsRowOf, a_document, a_text};
ghost use Rattle.text_refusals.specs.PlainLines.{ArePlain, PlainLine, items_from, lines_text};
ghost use Rattle.text_refusals.specs.Refused.{Row, all_rows};
ghost use Rattle.text_refusals.specs.declared.asked_file.FileSpot.TheVariants.{Given, Machine, Profile};

use crate::asked_file::FileKind;
use crate::word_rows::MOST_LINES;

/// States which tables and values [`statement_text`](crate::statement_text) sees in a text of plain lines: of
/// headings `[[name]]` and of lines `key = value`, of bare words and of texts in double quotes. It sees
/// those, each with the number of its line and the list of the heading before. It does nothing.
pub fn plain_lines_are_seen()
    ensures { (keys : TableKeys) (lines : List PlainLine) → ArePlain lines
        → items_of keys (lines_text lines) ≡ items_from 1 [] lines }
{}

/// States which rows there are, by the spots at which a document has a fault: each row is of such a spot, on
/// the line of an item of the text that shows it; and where the document has the fault, and is that of the
/// items, as it is for plain lines, there is a row. Some document is that of a plain line. It does nothing.
pub fn rows_show_faults()
    ensures spots { (names : NamedAddresses) (ms : Members) (fault : StatementFault) (has : Spot → Bool)
        (items : List Item) → ((s : Spot) → has s ≡ true ↔ IsFaultAt (address_of names) ms s fault)
        → (row : Row) → Contains (all_rows has items) row
        → (s : Spot) × IsFaultAt (address_of names) ms s fault × IsRowOf items row s }
    ensures rows { (names : NamedAddresses) (ms : Members) (fault : StatementFault) (has : Spot → Bool)
        (items : List Item) → ((s : Spot) → has s ≡ true ↔ IsFaultAt (address_of names) ms s fault)
        → AreOf items ms → HasFault (address_of names) ms fault
        → (row : Row) × Contains (all_rows has items) row }
    ensures some { AreOf (items_from 1 [] a_text) a_document }
{}

/// States which rows there are of a machine file, of a cycle profile and of a file of facts, by the spots at
/// which a document has the fault: each row is of such a spot, and says that the file lacks its key, or is of
/// a table or a value that shows it; and where the text shows a spot that has the fault, there is a row. It
/// does nothing.
pub fn file_rows_show_faults()
    ensures machine { (ms : Members) (fault : MachineFileFault) (has : MachineSpot → Bool)
        (items : List Item) → ((s : MachineSpot) → has s ≡ true ↔ IsMachineFaultAt ms s fault)
        → (row : Row) → Contains (machine_rows has items) row
        → (s : MachineSpot) × IsMachineFaultAt ms s fault
        × IsFileRowOf FileKind.Machine items row (Machine s) }
    ensures profile { (ms : Members) (fault : ProfileFileFault) (has : ProfileSpot → Bool)
        (items : List Item) → ((s : ProfileSpot) → has s ≡ true ↔ IsProfileFaultAt ms s fault)
        → (row : Row) → Contains (profile_rows has items) row
        → (s : ProfileSpot) × IsProfileFaultAt ms s fault
        × IsFileRowOf FileKind.Profile items row (Profile s) }
    ensures given { (ms : Members) (fault : GivenFault) (has : GivenSpot → Bool)
        (items : List Item) → ((s : GivenSpot) → has s ≡ true ↔ IsGivenFaultAt ms s fault)
        → (row : Row) → Contains (given_rows has items) row
        → (s : GivenSpot) × IsGivenFaultAt ms s fault
        × IsFileRowOf FileKind.Given items row (Given s) }
    ensures machine_rows { (ms : Members) (fault : MachineFileFault) (has : MachineSpot → Bool)
        (items : List Item) → ((s : MachineSpot) → has s ≡ true ↔ IsMachineFaultAt ms s fault)
        → (s : MachineSpot) → IsMachineFaultAt ms s fault
        → IsShown FileKind.Machine items (spot_of (Machine s))
        → (row : Row) × Contains (machine_rows has items) row }
    ensures profile_rows { (ms : Members) (fault : ProfileFileFault) (has : ProfileSpot → Bool)
        (items : List Item) → ((s : ProfileSpot) → has s ≡ true ↔ IsProfileFaultAt ms s fault)
        → (s : ProfileSpot) → IsProfileFaultAt ms s fault
        → IsShown FileKind.Profile items (spot_of (Profile s))
        → (row : Row) × Contains (profile_rows has items) row }
    ensures given_rows { (ms : Members) (fault : GivenFault) (has : GivenSpot → Bool)
        (items : List Item) → ((s : GivenSpot) → has s ≡ true ↔ IsGivenFaultAt ms s fault)
        → (s : GivenSpot) → IsGivenFaultAt ms s fault
        → IsShown FileKind.Given items (spot_of (Given s))
        → (row : Row) × Contains (given_rows has items) row }
{}

/// States how many lines a report names at most: 20. It does nothing.
pub fn most_lines()
    ensures { MOST_LINES ≡ 20 }
{}
