ghost use Rattle.std.specs.Prelude.{◌≡◌, List, ℕ, true};
ghost use Rattle.std.specs.List.{list_all};
ghost use Rattle.assembler.specs.ShownLines.{IsShown};
ghost use Rattle.json_trace.specs.Json.{needs_no_escape};

/// The law of texts: the line of a word has no character that a string of JSON must escape.
pub fn texts_need_no_escape()
    ensures { (word at : ℕ) (line : List ℕ) → IsShown word at line → list_all needs_no_escape line ≡ true }
{}
