ghost use Rattle.std.specs.Prelude.{◌≡◌, ℕ, List, Ok};
ghost use Rattle.asm_text.specs.Spelling.{Spells};
ghost use Rattle.asm_text.specs.Statements.{Parsed, line_of};

/// States that [`read_line`](crate::lines::read_line) takes the lines of the grammar and no others, each with
/// the meaning that it spells; so a line has one meaning at most. It does nothing.
pub fn lines_are_spelled()
    ensures read { (line : List ℕ) → (p : Parsed) → line_of line ≡ Ok p → Spells p line }
    ensures spelled { (line : List ℕ) → (p : Parsed) → Spells p line → line_of line ≡ Ok p }
{}
